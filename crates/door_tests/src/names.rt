//! No output has the name of an input or of another output.

use jeldroft_args::overwritten;

// Names of inputs, of outputs, and the first output that would overwrite.
const NAMES: &[(&[&str], &[&str], Option<&str>)] = &[
    (&[], &[], None),
    (&["m.txt", "t.tsv"], &["u.tsv", "p"], None),
    (&["m.txt", "t.tsv"], &["u.tsv", "t.tsv"], Some("t.tsv")),
    (&["m.txt"], &["./m.txt"], Some("./m.txt")),
    (&["./m.txt"], &["p", "m.txt"], Some("m.txt")),
    (&["./././m.txt"], &["m.txt"], None),
    (&["m.txt"], &["./p", "p"], Some("./p")),
    (&["m.txt"], &["M.txt", "m.txt2"], None),
    (&["d/m.txt"], &["m.txt", "./d/m.txt"], Some("./d/m.txt")),
];

#[test]
fn outputs_that_overwrite(rt: HostRuntime) {
    for (inputs, outputs, first) in NAMES {
        assert!(rt; overwritten(inputs, outputs) == *first);
    }
}
