//! Refusals of lines, parameters and groups.

use crate::written::tells;
use std::test::Fail;

// A file, and what is written of its refusal.
const REFUSALS: &[(&str, &str)] = &[
    // Lines.
    (
        "A: 1\nB: 2\n{ A, B }\n  C: 1, 2",
        "m.txt:4:3: error: expected a group or a constraint, since parameters stand before groups, found \"C: 1, 2\" [M2]\n",
    ),
    (
        "A: 1\nB 2",
        "m.txt:2:4: error: expected a colon behind the name of a parameter, found the end of the line [M3]\n",
    ),
    (
        "\u{feff}Größe 1\r\nB: 2",
        "m.txt:1:8: error: expected a colon behind the name of a parameter, found the end of the line [M3]\n",
    ),
    // Parameters.
    (
        "A: 1\n : 2",
        "m.txt:2:2: error: expected the name of a parameter before the colon, found nothing [M4]\n",
    ),
    (
        "A: 1\n\tB\u{1}: 2",
        "m.txt:2:2: error: expected the name of a parameter without control characters and byte-order marks, found \"B?\" [M5]\n",
    ),
    (
        "Size: 1\nType: 2\n  SIZE: 3",
        "m.txt:3:3: error: a second parameter named SIZE [M6]\n",
    ),
    (
        "A: 1, , 3",
        "m.txt:1:7: error: expected the name of a value, found nothing [M7]\n",
    ),
    (
        "A: 1\nB: x, y||z, , w",
        "m.txt:2:7: error: expected the name of a value, found \"y||z\" [M7]\n",
    ),
    (
        "A: 1, 2,",
        "m.txt:1:9: error: expected the name of a value, found nothing [M7]\n",
    ),
    (
        "Ä: é, ~~y, z",
        "m.txt:1:7: error: expected the name of a value without control characters, byte-order marks and a second mark of invalid values, found \"~~y\" [M8]\n",
    ),
    (
        "A: x, y\r, z",
        "m.txt:1:7: error: expected the name of a value without control characters, byte-order marks and a second mark of invalid values, found \"y?\" [M8]\n",
    ),
    (
        "A: x, y (0), z",
        "m.txt:1:7: error: expected a weight from 1 to 4294967295, found \"y (0)\" [M9]\n",
    ),
    (
        "Size: 1\nB: <Sise>, 2",
        "m.txt:2:4: error: no earlier parameter is named Sise; did you mean Size? [M10]\n",
    ),
    (
        "Size: 1\nB: 2, < Other >",
        "m.txt:2:7: error: no earlier parameter is named Other [M10]\n",
    ),
    (
        "A: <>",
        "m.txt:1:4: error: expected the name of an earlier parameter between \"<\" and \">\", found \"<>\" [M10]\n",
    ),
    (
        "A: ~~ababababababababababababababababababababababababababababababababababab",
        "m.txt:1:4: error: expected the name of a value without control characters, byte-order marks and a second mark of invalid values, found \"~~ababababababababababababababababababababababababababababab...\" [M8]\n",
    ),
    // Groups.
    (
        "A: 1\nB: 2\n { A, B",
        "m.txt:3:2: error: expected parameters between \"{\" and \"}\", found \"{ A, B\" [M11]\n",
    ),
    (
        "Size: 1\nType: 2\n{ Size, Typ }",
        "m.txt:3:9: error: no parameter is named Typ; did you mean Type? [M12]\n",
    ),
    (
        "A: 1\nB: 2\n@ 1 { B, , A }",
        "m.txt:3:10: error: expected the name of a parameter, found nothing [M12]\n",
    ),
    (
        "A: 1\nB: 2\n{ A, B, a }",
        "m.txt:3:9: error: a stands in the group twice [M13]\n",
    ),
    (
        "A: 1\nB: 2\n{ A, B } @ 3",
        "m.txt:3:12: error: expected an order from 1 to the number of parameters in the group, found 3 [M14]\n",
    ),
    (
        "A: 1\nB: 2\n@ 9 { A, B }",
        "m.txt:3:3: error: expected an order from 1 to the number of parameters in the group, found 9 [M14]\n",
    ),
    (
        "A: 1\nB: 2\n{ A, B } x",
        "m.txt:3:10: error: expected the end of the line, or \"@\" and an order behind a sub-model, found \"x\" [M15]\n",
    ),
    (
        "A: 1\nB: 2\n@ x { A, B }",
        "m.txt:3:3: error: expected a strength in digits behind \"@\", found \"x\" [M16]\n",
    ),
    // The whole.
    (
        "# nothing\n",
        "m.txt:1:1: error: the model has no parameters [M17]\n",
    ),
    (
        "A: 1\n\nB: 2\n\n[A] = 1;",
        "m.txt:3:1: error: 3 parameters are to be combined, and the model has 2 [M18]\n",
    ),
];

#[test]
fn places_in_lines(rt: HostRuntime) -> Result<(), Fail> {
    for (file, line) in REFUSALS {
        assert!(rt; tells(rt.alloc(), file.as_bytes(), 3, line)?, "{file:?}");
    }
    Ok(())
}

// A byte that isn't UTF-8.
#[test]
fn place_of_byte(rt: HostRuntime) -> Result<(), Fail> {
    let line = "m.txt:2:5: error: expected text in UTF-8, found the byte 0xff [M1]\n";
    assert!(rt; tells(rt.alloc(), b"A: 1\nB: \xc3\xa9\xff, 2", 2, line)?);
    Ok(())
}
