//! The texts of made models. Their numbers were drawn by a script of the generator's published step.

use made_models::made_model;
use std::test::Fail;

// A number, how its made model begins, and how it ends.
const MADE: &[(u64, &str, &str)] = &[
    (
        0,
        "P0: v0, v1, v2, v3, v4, v5, v6\n\
        P1: v0, v1, v2, v3, v4, v5, v6\n\
        P2: v0, v1, v2, v3\n",
        "IF [P2] = \"v2\" THEN [P58] <> \"v2\";\n\
        IF [P26] = \"v1\" THEN [P48] <> \"v2\";\n",
    ),
    (
        u64::MAX,
        "P0: v0, v1, v2\n\
        P1: v0, v1, v2, v3\n\
        P2: v0, v1, v2\n",
        "IF [P59] = \"v3\" THEN [P37] <> \"v2\";\n\
        IF [P29] = \"v2\" THEN [P2] <> \"v1\";\n",
    ),
];

#[test]
fn made_models_are_drawn(rt: HostRuntime) -> Result<(), Fail> {
    for (n, opening, ending) in MADE {
        let text = made_model(rt.alloc(), *n)?;
        assert!(rt; text.as_str().starts_with(*opening), "{n}");
        assert!(rt; text.as_str().ends_with(*ending), "{n}");
    }
    Ok(())
}

// The made model of 7: sixty parameters and thirty constraints.
const MADE_OF_7: &str = "\
    P0: v0, v1, v2, v3\n\
    P1: v0, v1, v2, v3, v4, v5\n\
    P2: v0, v1, v2, v3, v4, v5\n\
    P3: v0, v1, v2, v3, v4\n\
    P4: v0, v1, v2, v3, v4\n\
    P5: v0, v1, v2, v3, v4\n\
    P6: v0, v1, v2, v3, v4\n\
    P7: v0, v1, v2, v3, v4\n\
    P8: v0, v1, v2\n\
    P9: v0, v1, v2, v3\n\
    P10: v0, v1, v2\n\
    P11: v0, v1, v2, v3, v4, v5, v6\n\
    P12: v0, v1\n\
    P13: v0, v1, v2, v3, v4\n\
    P14: v0, v1, v2\n\
    P15: v0, v1, v2\n\
    P16: v0, v1, v2, v3\n\
    P17: v0, v1, v2, v3, v4\n\
    P18: v0, v1, v2, v3, v4\n\
    P19: v0, v1, v2, v3, v4\n\
    P20: v0, v1\n\
    P21: v0, v1, v2\n\
    P22: v0, v1, v2, v3\n\
    P23: v0, v1, v2, v3, v4, v5\n\
    P24: v0, v1, v2\n\
    P25: v0, v1, v2, v3, v4, v5\n\
    P26: v0, v1\n\
    P27: v0, v1, v2, v3\n\
    P28: v0, v1, v2, v3, v4, v5, v6\n\
    P29: v0, v1, v2, v3, v4, v5\n\
    P30: v0, v1\n\
    P31: v0, v1, v2, v3, v4, v5\n\
    P32: v0, v1, v2, v3\n\
    P33: v0, v1, v2, v3, v4, v5\n\
    P34: v0, v1, v2, v3, v4, v5, v6\n\
    P35: v0, v1\n\
    P36: v0, v1, v2, v3\n\
    P37: v0, v1, v2, v3, v4\n\
    P38: v0, v1, v2, v3, v4\n\
    P39: v0, v1, v2, v3\n\
    P40: v0, v1, v2, v3\n\
    P41: v0, v1, v2, v3, v4, v5\n\
    P42: v0, v1, v2\n\
    P43: v0, v1, v2, v3\n\
    P44: v0, v1, v2, v3, v4\n\
    P45: v0, v1, v2\n\
    P46: v0, v1, v2, v3, v4\n\
    P47: v0, v1, v2\n\
    P48: v0, v1\n\
    P49: v0, v1, v2\n\
    P50: v0, v1, v2\n\
    P51: v0, v1\n\
    P52: v0, v1, v2, v3\n\
    P53: v0, v1, v2, v3, v4, v5\n\
    P54: v0, v1, v2, v3, v4, v5\n\
    P55: v0, v1, v2, v3, v4\n\
    P56: v0, v1, v2, v3\n\
    P57: v0, v1, v2, v3, v4, v5, v6\n\
    P58: v0, v1, v2\n\
    P59: v0, v1, v2, v3, v4\n\
    IF [P2] = \"v1\" THEN [P21] <> \"v2\";\n\
    IF [P36] = \"v2\" THEN [P57] <> \"v3\";\n\
    IF [P3] = \"v3\" THEN [P34] <> \"v3\";\n\
    IF [P54] = \"v4\" THEN [P37] <> \"v4\";\n\
    IF [P18] = \"v4\" THEN [P9] <> \"v1\";\n\
    IF [P45] = \"v2\" THEN [P59] <> \"v1\";\n\
    IF [P36] = \"v1\" THEN [P5] <> \"v2\";\n\
    IF [P7] = \"v3\" THEN [P32] <> \"v2\";\n\
    IF [P42] = \"v2\" THEN [P22] <> \"v1\";\n\
    IF [P12] = \"v1\" THEN [P33] <> \"v2\";\n\
    IF [P2] = \"v2\" THEN [P10] <> \"v1\";\n\
    IF [P59] = \"v2\" THEN [P38] <> \"v2\";\n\
    IF [P7] = \"v4\" THEN [P20] <> \"v1\";\n\
    IF [P26] = \"v1\" THEN [P54] <> \"v1\";\n\
    IF [P14] = \"v2\" THEN [P30] <> \"v1\";\n\
    IF [P51] = \"v1\" THEN [P16] <> \"v1\";\n\
    IF [P13] = \"v4\" THEN [P54] <> \"v3\";\n\
    IF [P20] = \"v1\" THEN [P19] <> \"v3\";\n\
    IF [P18] = \"v3\" THEN [P33] <> \"v2\";\n\
    IF [P18] = \"v3\" THEN [P53] <> \"v5\";\n\
    IF [P33] = \"v1\" THEN [P58] <> \"v1\";\n\
    IF [P47] = \"v2\" THEN [P50] <> \"v2\";\n\
    IF [P13] = \"v2\" THEN [P24] <> \"v2\";\n\
    IF [P44] = \"v4\" THEN [P27] <> \"v3\";\n\
    IF [P44] = \"v2\" THEN [P1] <> \"v3\";\n\
    IF [P14] = \"v1\" THEN [P47] <> \"v1\";\n\
    IF [P14] = \"v2\" THEN [P53] <> \"v5\";\n\
    IF [P42] = \"v2\" THEN [P7] <> \"v4\";\n\
    IF [P59] = \"v1\" THEN [P57] <> \"v6\";\n\
    IF [P19] = \"v4\" THEN [P53] <> \"v2\";\n";

#[test]
fn the_made_model_of_7_has_its_text(rt: HostRuntime) -> Result<(), Fail> {
    let first = made_model(rt.alloc(), 7)?;
    let second = made_model(rt.alloc(), 7)?;
    assert!(rt; first.as_str() == MADE_OF_7);
    assert!(rt; second.as_str() == MADE_OF_7);
    Ok(())
}
