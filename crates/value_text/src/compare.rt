ghost use Rattle.std.specs.Prelude.{◌≡◌};
ghost use Rattle.std.specs.Cmp.Lexicographic.{slice_cmp};
ghost use Rattle.std.specs.Ordering.{nat_cmp};
ghost use Rattle.std.specs.Str.{str_to_ascii_lowercase};
ghost use Rattle.value_text.specs.believed.Texts.{is_same_text, text_order};

use std::cmp::Ordering;

/// Whether two texts are one: their bytes are equal, after the ASCII letters are folded to lower
/// case where `fold` is set (PICT's guide). Takes no memory.
pub fn same_text(a: &str, b: &str, fold: bool) -> bool
    ensures { result ≡ is_same_text fold a.now b.now }
{
    if fold {
        a.eq_ignore_ascii_case(b)
    } else {
        a == b
    }
}

/// The order of two texts by their bytes, after the ASCII letters are folded to lower case where
/// `fold` is set (this project's rule). Takes no memory.
pub fn order_text(a: &str, b: &str, fold: bool) -> Ordering
    ensures { result ≡ text_order fold a.now b.now }
{
    if fold {
        order_folded(a.as_bytes(), b.as_bytes())
    } else {
        a.cmp(b)
    }
}

// The order of two texts by their bytes in lower case.
fn order_folded(a: &[u8], b: &[u8]) -> Ordering
    ensures { result ≡ slice_cmp nat_cmp (str_to_ascii_lowercase a.now) (str_to_ascii_lowercase b.now) }
{
    a.iter()
        .map(|byte| byte.to_ascii_lowercase())
        .cmp(b.iter().map(|byte| byte.to_ascii_lowercase()))
}
