ghost use Rattle.std.specs.Prelude.{◌≡◌, ◌+◌, ◌-◌, ◌^◌, ◌<◌, ◌≤◌, ◌++◌, ◌∷◌, length, min, decimal, vec_len, vec_capacity, OnOk, OnErr};
ghost use Rattle.definitions.specs.believed.Pairs.{pair_text};
ghost use Rattle.definitions.specs.believed.ProofText.{token_text};
ghost use Rattle.refutation.specs.Proofs.{meant};
ghost use Rattle.refutation.specs.Lines.{form_text, line_len, line_text, pair_words, spaced, token_words};

use crate::omissions::{Omission, ProofForm};
use crate::token::TreeToken;
use cov_model::{ParamNo, ValueNo};
use itoa::Buffer;
use value_text::NoMemory;

// The bytes of "omit", of " :" and of the line feed, which each line of an omission has.
const FRAME_LEN: u64 = 7;

// How many digits a number has.
fn digit_count(number: u32) -> u64
    ensures value { result ≡ length (decimal number) }
    ensures small { result ≤ 40 }
{
    let mut digits = Buffer::new();
    digits.format(number).len() as u64
}

// How many bytes a pair has in a line, with the space before it.
fn pair_len(pair: (ParamNo, ValueNo)) -> u64
    ensures { result ≡ length (32 ∷ pair_text pair) }
{
    2 + digit_count(u32::from(pair.0)) + digit_count(u32::from(pair.1))
}

// How many bytes a token has in a line, with the space before it.
fn token_len(token: TreeToken) -> u64
    ensures { result ≡ length (32 ∷ token_text (meant token)) }
{
    match token {
        TreeToken::Branch(param) => 2 + digit_count(u32::from(param)),
        TreeToken::ByRule(rule) => 2 + digit_count(rule),
        TreeToken::ByNegative => 2,
        TreeToken::ByOmission(number) => 2 + digit_count(number),
    }
}

// How many bytes pairs have in a line, or 2^64 - 1 where that is less.
fn pairs_len(pairs: &[(ParamNo, ValueNo)]) -> u64
    ensures { result ≡ min (length (spaced (pair_words pairs.now))) (2 ^ 64 - 1) }
{
    let mut total: u64 = 0;
    for pair in pairs {
        total = total.saturating_add(pair_len(*pair));
    }
    total
}

// How many bytes tokens have in a line, or 2^64 - 1 where that is less.
fn tokens_len(tokens: &[TreeToken]) -> u64
    ensures { result ≡ min (length (spaced (token_words tokens.now))) (2 ^ 64 - 1) }
{
    let mut total: u64 = 0;
    for token in tokens {
        total = total.saturating_add(token_len(*token));
    }
    total
}

// Appends bytes, for which there is room.
fn put_bytes(bytes: &[u8], into: &mut Vec<u8>)
    requires { vec_len into.old + length bytes.now ≤ vec_capacity into.old }
    ensures appended { into.new.items ≡ into.old.items ++ bytes.now }
    ensures len { vec_len into.new ≡ vec_len into.old + length bytes.now }
    ensures capacity { vec_capacity into.old ≤ vec_capacity into.new }
{
    let copied = into.extend_from_slice(bytes);
    prove!(copied.is_ok());
}

// Appends a number in decimal, for which there is room.
fn put_number(number: u32, into: &mut Vec<u8>)
    requires { vec_len into.old + length (decimal number) ≤ vec_capacity into.old }
    ensures appended { into.new.items ≡ into.old.items ++ decimal number }
    ensures len { vec_len into.new ≡ vec_len into.old + length (decimal number) }
    ensures capacity { vec_capacity into.old ≤ vec_capacity into.new }
{
    let mut digits = Buffer::new();
    put_bytes(digits.format(number).as_bytes(), into);
}

// Appends a pair and the space before it, for which there is room.
fn put_pair(pair: (ParamNo, ValueNo), into: &mut Vec<u8>)
    requires { vec_len into.old + length (32 ∷ pair_text pair) ≤ vec_capacity into.old }
    ensures appended { into.new.items ≡ into.old.items ++ 32 ∷ pair_text pair }
    ensures len { vec_len into.new ≡ vec_len into.old + length (32 ∷ pair_text pair) }
    ensures capacity { vec_capacity into.old ≤ vec_capacity into.new }
{
    put_bytes(b" ", into);
    put_number(u32::from(pair.0), into);
    put_bytes(b"=", into);
    put_number(u32::from(pair.1), into);
}

// Appends a letter with the space before it and the number behind it, for which there is room.
fn put_numbered(letter: &[u8; 2], number: u32, into: &mut Vec<u8>)
    requires { vec_len into.old + (2 + length (decimal number)) ≤ vec_capacity into.old }
    ensures appended { into.new.items ≡ into.old.items ++ (letter.now ++ decimal number) }
    ensures len { vec_len into.new ≡ vec_len into.old + (2 + length (decimal number)) }
    ensures capacity { vec_capacity into.old ≤ vec_capacity into.new }
{
    put_bytes(letter, into);
    put_number(number, into);
}

// Appends a token and the space before it, for which there is room.
fn put_token(token: TreeToken, into: &mut Vec<u8>)
    requires { vec_len into.old + length (32 ∷ token_text (meant token)) ≤ vec_capacity into.old }
    ensures appended { into.new.items ≡ into.old.items ++ 32 ∷ token_text (meant token) }
    ensures len { vec_len into.new ≡ vec_len into.old + length (32 ∷ token_text (meant token)) }
    ensures capacity { vec_capacity into.old ≤ vec_capacity into.new }
{
    match token {
        TreeToken::Branch(param) => put_numbered(b" B", u32::from(param), into),
        TreeToken::ByRule(rule) => put_numbered(b" L", rule, into),
        TreeToken::ByNegative => put_bytes(b" N", into),
        TreeToken::ByOmission(number) => put_numbered(b" O", number, into),
    }
}

// Appends pairs, for which there is room.
fn put_pairs(pairs: &[(ParamNo, ValueNo)], into: &mut Vec<u8>)
    requires { vec_len into.old + length (spaced (pair_words pairs.now)) ≤ vec_capacity into.old }
    ensures appended { into.new.items ≡ into.old.items ++ spaced (pair_words pairs.now) }
    ensures len { vec_len into.new ≡ vec_len into.old + length (spaced (pair_words pairs.now)) }
    ensures capacity { vec_capacity into.old ≤ vec_capacity into.new }
{
    for pair in pairs {
        put_pair(*pair, into);
    }
}

// Appends tokens, for which there is room.
fn put_tokens(tokens: &[TreeToken], into: &mut Vec<u8>)
    requires { vec_len into.old + length (spaced (token_words tokens.now)) ≤ vec_capacity into.old }
    ensures appended { into.new.items ≡ into.old.items ++ spaced (token_words tokens.now) }
    ensures len { vec_len into.new ≡ vec_len into.old + length (spaced (token_words tokens.now)) }
    ensures capacity { vec_capacity into.old ≤ vec_capacity into.new }
{
    for token in tokens {
        put_token(*token, into);
    }
}

// The first line of a proof.
fn format_line(form: ProofForm) -> &'static [u8]
    ensures { result.now ≡ form_text form }
{
    match form {
        ProofForm::One => b"pict-proof 1\n",
        ProofForm::Two => b"pict-proof 2\n",
    }
}

/// The number of bytes of the first line of a proof (this project's rule). Takes no memory.
pub fn format_len(form: ProofForm) -> u64
    ensures { result ≡ length (form_text form) }
{
    format_line(form).len() as u64
}

/// Appends the first line of a proof, which gives its format (this project's rule). There has to be
/// room for its `format_len` bytes. Takes no memory.
pub fn put_format(form: ProofForm, into: &mut Vec<u8>)
    requires { vec_len into.old + length (form_text form) ≤ vec_capacity into.old }
    ensures appended { into.new.items ≡ into.old.items ++ form_text form }
    ensures len { vec_len into.new ≡ vec_len into.old + length (form_text form) }
    ensures capacity { vec_capacity into.old ≤ vec_capacity into.new }
{
    put_bytes(format_line(form), into);
}

/// The number of bytes of the line of an omission, or 2^64 - 1 where that is less (this project's
/// rule). It is a line of a proof file where neither the tuple nor the tree is empty. Takes no
/// memory.
pub fn omission_len(omission: &Omission) -> u64
    ensures { result ≡ line_len omission.now }
{
    let pairs = pairs_len(omission.tuple.as_slice());
    let tokens = tokens_len(omission.tree.as_slice());
    pairs.saturating_add(tokens).saturating_add(FRAME_LEN)
}

/// Appends the line of an omission (this project's rule). It is a line of a proof file where neither
/// the tuple nor the tree is empty. There has to be room for its `omission_len` bytes. Takes no
/// memory.
pub fn put_omission(omission: &Omission, into: &mut Vec<u8>)
    requires { vec_len into.old + line_len omission.now ≤ vec_capacity into.old }
    ensures appended { into.new.items ≡ into.old.items ++ line_text omission.now }
    ensures len { vec_len into.new ≡ vec_len into.old + line_len omission.now }
    ensures capacity { vec_capacity into.old ≤ vec_capacity into.new }
{
    put_bytes(b"omit", into);
    put_pairs(omission.tuple.as_slice(), into);
    put_bytes(b" :", into);
    put_tokens(omission.tree.as_slice(), into);
    put_bytes(b"\n", into);
}

/// Makes room for the line of an omission and appends it (this project's rule). It is a line of a
/// proof file where neither the tuple nor the tree is empty.
///
/// # Errors
///
/// `NoMemory` where there is no room; the bytes are then as before.
pub fn write_omission(omission: &Omission, into: &mut Vec<u8>) -> Result<(), NoMemory>
    ensures ok { OnOk result (into.new.items ≡ into.old.items ++ line_text omission.now) }
    ensures err { OnErr result (into.new.items ≡ into.old.items) }
{
    into.reserve(omission_len(omission) as usize)?;
    put_omission(omission, into);
    Ok(())
}
