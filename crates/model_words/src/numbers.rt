ghost use Rattle.std.specs.Prelude.{◌≡◌, ◌≤◌, ◌++◌, OnOk, drop, length, take};
ghost use Rattle.model_words.specs.believed.Explanations.{with_number};
ghost use Rattle.model_words.specs.Rising.{IsPlaceOf};

use value_text::NoMemory;

// The place of the first of some rising numbers that isn't less.
fn place_of(number: u32, rising: &[u32]) -> usize
    ensures place { take result rising.now ++ with_number number (drop result rising.now) ≡ with_number number rising.now }
    ensures first { IsPlaceOf number (drop result rising.now) }
    ensures within { result ≤ length rising.now }
{
    let mut at = 0;
    while at < rising.len() && rising[at] < number {
        at += 1;
    }
    at
}

/// Adds a number to others that rise, unless it is one of them.
///
/// # Errors
///
/// `NoMemory` where there is no room for it.
pub(crate) fn add_once(number: u32, rising: &mut Vec<u32>) -> Result<(), NoMemory>
    ensures { OnOk result (rising.new.items ≡ with_number number rising.old.items) }
{
    let at = place_of(number, rising.as_slice());
    if at < rising.len() && rising[at] == number {
        return Ok(());
    }
    rising.insert(at, number)?;
    Ok(())
}
