ghost use Rattle.std.specs.Prelude.{◌≡◌, ◌<◌, [], ◌∷◌, length, IfNone, IfSome};
ghost use Rattle.value_text.specs.believed.Like.{is_like, folded_chars};
ghost use Rattle.value_text.specs.PatternParts.{IsPartMatch};

/// Whether a pattern matches a whole text: `*` is any run of characters, also none, `?` is any one
/// character, and every other character is itself, an ASCII letter in either case where `fold` is
/// set (PICT's guide). Takes no memory, and at most about as many steps as the product of the two
/// lengths.
pub fn like(pattern: &str, text: &str, fold: bool) -> bool
    ensures { result ≡ is_like fold pattern.now text.now }
{
    // What stands behind the last `*`, and the text where its match is tried.
    let (mut part, mut start, mut after_star) = (pattern, text, false);
    loop {
        match match_part(part, start, fold) {
            PartMatch::Whole => return true,
            PartMatch::TextEnds => return false,
            PartMatch::Star(behind, rest) => {
                part = behind;
                start = rest;
                after_star = true;
            }
            PartMatch::Differs => {
                // A later start is left to the last `*` alone: an earlier one that took more of the
                // text would leave less of it to this one.
                if !after_star {
                    return false;
                }
                let Some((_, later)) = next_char(start, fold) else {
                    return false;
                };
                start = later;
            }
        }
    }
}

// How the part of a pattern before its first `*` fits the start of a text.
enum PartMatch<'a> {
    // There is no `*`, and the pattern matches the whole text.
    Whole,
    // The text ends inside the part.
    TextEnds,
    // A character differs, or the pattern ends before the text.
    Differs,
    // The part fits: the pattern behind the `*`, and the text that is left.
    Star(&'a str, &'a str),
}

fn match_part<'a>(pattern: &'a str, text: &'a str, fold: bool) -> PartMatch<'a>
    ensures { IsPartMatch fold pattern.now text.now result }
{
    let (mut pattern_rest, mut text_rest) = (pattern, text);
    while let Some((mark, behind)) = next_char(pattern_rest, fold) {
        if mark == '*' {
            return PartMatch::Star(behind, text_rest);
        }
        let Some((letter, rest)) = next_char(text_rest, fold) else {
            return PartMatch::TextEnds;
        };
        if mark != '?' && mark != letter {
            return PartMatch::Differs;
        }
        pattern_rest = behind;
        text_rest = rest;
    }
    if text_rest.is_empty() {
        PartMatch::Whole
    } else {
        PartMatch::Differs
    }
}

// The first character of a text under the case rule, and what follows it.
fn next_char(text: &str, fold: bool) -> Option<(char, &str)>
    ensures none { IfNone result (folded_chars fold text.now ≡ []) }
    ensures some { IfSome result (λ next. folded_chars fold text.now ≡ next.0 ∷ folded_chars fold next.1.now) }
    ensures shorter { IfSome result (λ next. length next.1.now < length text.now) }
{
    let mut chars = text.chars();
    let first = chars.next()?;
    let folded = if fold {
        first.to_ascii_lowercase()
    } else {
        first
    };
    Some((folded, chars.as_str()))
}
