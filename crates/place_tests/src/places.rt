//! The place of a refusal as numbers, and what is expected by a code.

use crate::written::diag_of;
use model_lex::DiagCode;
use refusal_places::{Place, expected, refusal_place};
use std::test::Fail;
use test_models::options;

#[test]
fn place_of_word(rt: HostRuntime) -> Result<(), Fail> {
    let file = "Ä: 1\nB: 2\n[Ä] = 1 THEN [B] = 2;".as_bytes();
    let diag = diag_of(rt.alloc(), file, 2).ok_or("not refused")?;
    let place = refusal_place(rt.alloc(), file, &options(2), &diag)?;
    assert!(rt;
        place
            == Place {
                line: 3,
                column: 9,
                from: 20,
                to: 24
            }
    );
    Ok(())
}

#[test]
fn words_of_code(rt: HostRuntime) -> Result<(), Fail> {
    let words = expected(DiagCode::RelationExpected);
    assert!(rt; words == "a comparison (=, <>, <, <=, >, >=, IN or LIKE)");
    Ok(())
}

#[test]
fn large(rt: HostRuntime) -> Result<(), Fail> {
    let mut text = String::from_str(rt.alloc(), "A: 1, 2\nB: x, y\n")?;
    for _ in 0..140000 {
        text.push_str("IF [A] = 1 THEN [B] = \"x\";\n")?;
    }
    text.push_str("IF [A] = 1;\n")?;
    let line = "m.txt:140003:11: error: expected THEN, AND or OR after 1, found \";\" [C10]\n";
    assert!(rt; crate::written::tells(rt.alloc(), text.as_bytes(), 2, line)?);
    Ok(())
}
