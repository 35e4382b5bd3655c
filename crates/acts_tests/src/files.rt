//! Files, and what they become.

use acts_front::{ActsCode, ActsFault, translate};

// A file, and the model file that it becomes where letters of either case are one.
const TRANSLATED: &[(&str, &str)] = &[
    (
        "[System]\nName: demo\n[Parameter]\nA (int): 1, 2\nB (enum): x, y\n[Constraint]\nA = 1 => B = \"x\"\n",
        "\n\n\nA: 1, 2\nB: x, y\n\nIF [A] = 1 THEN [B] = \"x\";\n",
    ),
    (
        "\u{feff}-- a file\r\n\t[PARAMETER] -- here\r\nb1 ( Boolean ) : false ,TRUE\r\nN(int):-1,007\r\nE(ENUM): u.v , _w",
        "\n\nb1: FALSE, TRUE\nN: -1, 007\nE: u.v, _w\n",
    ),
    (
        "[Parameter]\nA (int): 1\nB (int): 2\n[Relation]\nR: (A, B, 2)\nS:( b , 1 )\n[Constraint]\n\n",
        "\nA: 1\nB: 2\n\n@ 2 { A, B }\n@ 1 { b }\n\n\n",
    ),
    (
        "[Parameter]\nA (int): 1\nB (boolean): true, false\n[Constraint]\n!!(A!=-1||!B=tRUE)&&a<=A => (A>0 || A<9) && B != False -- so\n",
        "\nA: 1\nB: TRUE, FALSE\n\nIF NOT NOT ( [A] <> -1 OR NOT [B] = \"TRUE\" ) AND [a] <= [A] THEN ( [A] > 0 OR [A] < 9 ) AND [B] <> \"FALSE\";\n",
    ),
    // `=>` binds less than `||`, on both of its sides
    (
        "[Parameter]\nA (int): 1, 2\nB (enum): x, y\n[Constraint]\nA = 1 || B = \"x\" => A = 2 || B = \"y\"\n",
        "\nA: 1, 2\nB: x, y\n\nIF [A] = 1 OR [B] = \"x\" THEN [A] = 2 OR [B] = \"y\";\n",
    ),
    (
        "[Parameter]\nA (int): 1, 01\nB (int): 3\n[Relation]\nR: (A, B, 02)\n",
        "\nA: 1, 01\nB: 3\n\n@ 02 { A, B }\n",
    ),
    (
        "[Parameter]\nB (enum): x\n[Constraint]\nB = \"a -- b\" -- c\nB != \"\" -- \"\n",
        "\nB: x\n\n[B] = \"a -- b\";\n[B] <> \"\";\n",
    ),
];

#[test]
fn translates_each_line(rt: HostRuntime) {
    for (file, model) in TRANSLATED {
        assert!(rt; file.len() < 1000);
        match translate(rt.alloc(), file.as_bytes(), true) {
            Ok(text) => assert!(rt; text.as_slice() == model.as_bytes(), "{file}"),
            Err(fault) => assert!(rt; false, "{fault:?} {file}"),
        }
    }
}

// A file, whether letters of either case are one, and the first refusal.
const REFUSED: &[(&str, bool, u32, ActsCode)] = &[
    ("[Parameter]\nA (int): 1 -- \u{7}\n", true, 2, ActsCode::A1),
    ("[Parameter]\nA (enum): \u{e9}\n", true, 2, ActsCode::A1),
    ("[Parameter]\nA (int): 1\n[System]\n", true, 3, ActsCode::A2),
    ("[Parameter]\n[Parameter]\n", true, 2, ActsCode::A2),
    ("[Parameters]\n", true, 1, ActsCode::A2),
    ("[ Parameter ]\n", true, 1, ActsCode::A2),
    (
        "[System]\n[Foo]\n[Parameter]\nA (int): 1\n",
        true,
        2,
        ActsCode::A2,
    ),
    ("A (int): 1\n[Parameter]\n", true, 1, ActsCode::A2),
    ("[Parameter]\nA int: 1\n", true, 2, ActsCode::A3),
    ("[Parameter]\nA (int): 1,\n", true, 2, ActsCode::A3),
    ("[Parameter]\nA (int): 1234567890\n", true, 2, ActsCode::A3),
    ("[Parameter]\nA (enum): 1\n", true, 2, ActsCode::A3),
    (
        "[Parameter]\nA (int): 1\na (int): 1\n",
        true,
        3,
        ActsCode::A4,
    ),
    ("[Parameter]\nA (enum): x, X\n", true, 2, ActsCode::A4),
    (
        "[Parameter]\nA (boolean): true, TRUE\n",
        false,
        2,
        ActsCode::A4,
    ),
    (
        "[Parameter]\nA (int): 1\n[Relation]\nR: (2)\n",
        true,
        4,
        ActsCode::A5,
    ),
    (
        "[Parameter]\nA (int): 1\n[Relation]\nR: (A, B, 1)\n",
        true,
        4,
        ActsCode::A6,
    ),
    (
        "[Parameter]\nA (int): 1\n[Relation]\nR: (A, a, 1)\n",
        true,
        4,
        ActsCode::A6,
    ),
    (
        "[Parameter]\nA (int): 1\n[Relation]\nR: (a, 1)\n",
        false,
        4,
        ActsCode::A6,
    ),
    (
        "[Parameter]\nA (int): 1\n[Relation]\nR: (A, 2)\n",
        true,
        4,
        ActsCode::A7,
    ),
    (
        "[Parameter]\nA (int): 1\n[Relation]\nR: (A, 0)\n",
        true,
        4,
        ActsCode::A7,
    ),
    ("[System]\n[Parameter]\n\n", true, 1, ActsCode::A8),
    ("", true, 1, ActsCode::A8),
    (
        "[Parameter]\nA (int): 1\n[Constraint]\nA = 1 => A = 1 => A = 1\n",
        true,
        4,
        ActsCode::A9,
    ),
    (
        "[Parameter]\nA (int): 1\n[Constraint]\nZ = 1 &&\n",
        true,
        4,
        ActsCode::A9,
    ),
    (
        "[Parameter]\nA (enum): x\n[Constraint]\nA = \"\\\"\n",
        true,
        4,
        ActsCode::A9,
    ),
    (
        "[Parameter]\nA (int): 1\n[Constraint]\nA = \"1\" || Z = 1\n",
        true,
        4,
        ActsCode::A10,
    ),
    (
        "[Parameter]\nA (int): 1\n[Constraint]\na = 1\n",
        false,
        4,
        ActsCode::A10,
    ),
    (
        "[Parameter]\nA (int): 1\n[Constraint]\nA = \"1\"\n",
        true,
        4,
        ActsCode::A11,
    ),
    (
        "[Parameter]\nA (enum): x\n[Constraint]\nA > \"x\"\n",
        true,
        4,
        ActsCode::A11,
    ),
    (
        "[Parameter]\nA (boolean): true\n[Constraint]\nA = \"TRUE\"\n",
        true,
        4,
        ActsCode::A11,
    ),
    // The first line, and the lower code of one line.
    (
        "[Parameter]\nA (int): 1, 1\nB (int)\n",
        true,
        2,
        ActsCode::A4,
    ),
    (
        "[Parameter]\nA (int): 1\n[Relation]\nR: (B, 2)\n",
        true,
        4,
        ActsCode::A6,
    ),
    ("x \u{7}\n", true, 1, ActsCode::A1),
];

#[test]
fn refuses_the_first_line(rt: HostRuntime) {
    for (file, fold, line, code) in REFUSED {
        assert!(rt; file.len() < 1000);
        match translate(rt.alloc(), file.as_bytes(), *fold) {
            Ok(_) => assert!(rt; false, "{file}"),
            Err(fault) => assert!(rt; fault == ActsFault::Bad(*line, *code), "{fault:?} {file}"),
        }
    }
}
