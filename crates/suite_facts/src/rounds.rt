ghost use Rattle.std.specs.Prelude.{◌≡◌, ◌++◌, ◌∷◌, [], IfOk, OnOk, nat_lt};
ghost use Rattle.std.specs.List.{filter};
ghost use Rattle.suite_facts.specs.believed.Facts.{round_counts};

use std::alloc::Global;
use value_text::NoMemory;

// The round numbers, up to the most rows that a file may have.
const ROUND: [u32; 19] = [
    1, 2, 5, 10, 20, 50, 100, 200, 500, 1_000, 2_000, 5_000, 10_000, 20_000, 50_000, 100_000,
    200_000, 500_000, 1_000_000,
];

// Adds a number that is below another one, and no other number.
fn add_below(number: u32, count: u32, counts: &mut Vec<u32>) -> Result<(), NoMemory>
    ensures { OnOk result (counts.new.items ≡ counts.old.items ++ filter (λ n. nat_lt n count) (number ∷ [])) }
{
    if number < count {
        counts.push(number)?;
    }
    Ok(())
}

// Those of the numbers that are below another one.
#[tactic(auto, using(crate::proofs::RoundLemmas::below_more))]
fn those_below(alloc: Global, numbers: &[u32], count: u32) -> Result<Vec<u32>, NoMemory>
    ensures { IfOk result (λ counts. counts.items ≡ filter (λ n. nat_lt n count) numbers.now) }
{
    let mut counts = Vec::new(alloc);
    for number in numbers {
        add_below(*number, count, &mut counts)?;
    }
    Ok(counts)
}

/// The numbers of tests after which it is told how many tuples are covered: 1, 2, 5, 10 and so on, as far as they are
/// less than all, and all.
///
/// # Errors
///
/// `NoMemory` where memory is refused.
pub fn round_counts(alloc: Global, count: u32) -> Result<Vec<u32>, NoMemory>
    ensures { IfOk result (λ counts. counts.items ≡ round_counts count) }
{
    let mut counts = those_below(alloc, &ROUND, count)?;
    counts.push(count)?;
    Ok(counts)
}
