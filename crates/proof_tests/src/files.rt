//! Proof files that are written and read back, and lines that are none.

use crate::proofs::proof_of;
use crate::trees::BARRED;
use cov_model::{TestModel, Tuple};
use refutation::{
    Omission, Omissions, ProofFault, ProofForm, TreeBuf, TreeToken, format_len, omission_len,
    put_format, put_omission, write_omission,
};
use std::alloc::Global;
use test_models::model_of;
use value_text::NoMemory;

// Eleven values, a negative one, and two constraints.
const MODEL: &str = "A: 0, 1, 2, 3, 4, 5, 6, 7, 8, 9, 10\nB: x, ~y\nIF [A] = 1 THEN [B] = \"x\";\n\
    IF [A] = 2 THEN [B] = \"x\";\n";

// Proof files.
const FILES: &[&str] = &[
    "pict-proof 1\n",
    "pict-proof 2\n",
    "pict-proof 1\nomit 0=1 1=1 : L1\n",
    "pict-proof 1\nomit 0=1 1=1 : L1\nomit 0=2 1=1 : L2\nomit 0=10 : B1 B0 N L1 L2 N\n",
    "pict-proof 2\nomit 0=0 : O1\nomit 1=0 : O4294967295 O10 O2\n",
];

// The whole proof of the model in which no value of C goes with the first value of A.
const BARRED_PROOF: &str = "pict-proof 1\nomit 0=0 2=0 : L1\nomit 0=0 2=1 : L2\nomit 0=0 2=2 : L3\n\
    omit 0=0 1=0 : B2 L1 L2 L3\nomit 0=0 1=1 : B2 L1 L2 L3\n";

// Files that are none, each with the number of the first line that is none.
const BROKEN: &[(&str, u32)] = &[
    ("", 1),
    ("\n", 1),
    ("pict-proof 1", 1),
    ("pict-proof 0\n", 1),
    ("pict-proof 3\n", 1),
    ("pict-proof 01\n", 1),
    ("pict-proof 1\r\n", 1),
    ("pict-proof 1 \n", 1),
    ("pict-proof  1\n", 1),
    ("Pict-proof 1\n", 1),
    ("pict-proof 1\nomit 0=1 1=1 : L1", 2),
    ("pict-proof 1\nomit 0=1 1=1 : L1\n ", 3),
    ("pict-proof 1\nomit 0=1 1=1 : L1\n\n", 3),
    ("pict-proof 1\n\nomit 0=1 1=1 : L1\n", 2),
    ("pict-proof 1\nomit 0=1\nomit\n", 2),
];

// Lines that are none behind a line of an omission in format 1.
const NO_LINES: &[&str] = &[
    "omit",
    "omit ",
    "omit : L1",
    "omit 0=1 :",
    "omit 0=1 : ",
    "omit 0=1 L1",
    "omit 0=1 : : L1",
    "omit 0=1 : L1 :",
    "Omit 0=1 : L1",
    " omit 0=1 : L1",
    "omit  0=1 : L1",
    "omit 0=1  : L1",
    "omit 0=1 : L1 ",
    "omit 0=1\t: L1",
    "omit 0=1: L1",
    "omit 1=1 0=1 : L1",
    "omit 0=1 0=1 : L1",
    "omit 2=0 : L1",
    "omit 0=11 : L1",
    "omit 1=2 : L1",
    "omit 00=1 : L1",
    "omit 0=01 : L1",
    "omit +0=1 : L1",
    "omit 0=-1 : L1",
    "omit 0 : L1",
    "omit 0= : L1",
    "omit =1 : L1",
    "omit 0=1=1 : L1",
    "omit 0=4294967297 : L1",
    "omit 0=18446744073709551617 : L1",
    "omit 0=1 : L0",
    "omit 0=1 : L3",
    "omit 0=1 : L01",
    "omit 0=1 : L",
    "omit 0=1 : l1",
    "omit 0=1 : B2",
    "omit 0=1 : B",
    "omit 0=1 : B01",
    "omit 0=1 : N0",
    "omit 0=1 : M",
    "omit 0=1 : 1",
    "omit 0=1 : O1",
];

// Citations that are none in format 2 either.
const NO_CITATIONS: &[&str] = &["O0", "O", "O01", "O4294967296", "O-1", "o1"];

// Adds the text of a proof, each line with its own room.
fn write(proof: &Omissions, into: &mut Vec<u8>) -> Result<(), NoMemory> {
    into.reserve(format_len(proof.form()) as usize)?;
    put_format(proof.form(), into);
    for omission in proof.as_slice() {
        write_omission(omission, into)?;
    }
    Ok(())
}

// Adds the lines of the omissions of a proof.
fn put(proof: &Omissions, into: &mut Vec<u8>) -> Result<(), NoMemory> {
    for omission in proof.as_slice() {
        into.reserve(omission_len(omission) as usize)?;
        put_omission(omission, into);
    }
    Ok(())
}

// Whether a proof is written as this text.
fn is_written(alloc: Global, proof: &Omissions, text: &[u8]) -> bool {
    let mut whole = Vec::new(alloc);
    match write(proof, &mut whole) {
        Ok(()) => whole.as_slice() == text,
        Err(NoMemory) => false,
    }
}

// Whether its omissions are written as the lines of this text behind the first.
fn ends_with(alloc: Global, proof: &Omissions, text: &[u8]) -> bool {
    let mut lines = Vec::new(alloc);
    match put(proof, &mut lines) {
        Ok(()) => text.ends_with(lines.as_slice()) && proof.is_empty() == lines.is_empty(),
        Err(NoMemory) => false,
    }
}

fn keeps_text(alloc: Global, proof: &Omissions, text: &[u8]) -> bool {
    proof.iter().count() == proof.len()
        && is_written(alloc, proof, text)
        && ends_with(alloc, proof, text)
}

// How the reading of a text ends for a model: with the number of the line that is none, or with 0 where its proof is
// written as it was read; with nothing where it isn't, or memory was refused.
fn end_for(alloc: Global, model: &TestModel, text: &str) -> Option<u32> {
    match proof_of(alloc, model, text) {
        Ok(proof) => keeps_text(alloc, &proof, text.as_bytes()).then_some(0),
        Err(ProofFault::Line(line)) => Some(line),
        Err(ProofFault::NoMemory) => None,
    }
}

// The same for the model of a text.
fn end_under(alloc: Global, model: &str, text: &str) -> Option<u32> {
    match model_of(alloc, model) {
        Ok(model) => end_for(alloc, &model, text),
        Err(_) => None,
    }
}

fn end_of(alloc: Global, text: &str) -> Option<u32> {
    end_under(alloc, MODEL, text)
}

#[test]
fn proofs_are_written_as_they_were_read(rt: HostRuntime) {
    for text in FILES {
        assert!(rt; end_of(rt.alloc(), text) == Some(0), "{text}");
    }
    assert!(rt; end_under(rt.alloc(), BARRED, BARRED_PROOF) == Some(0));
}

const TOKENS: &[TreeToken] = &[
    TreeToken::Branch(1),
    TreeToken::ByRule(2),
    TreeToken::ByNegative,
    TreeToken::ByOmission(30),
];

fn push_tokens(tree: &mut TreeBuf) -> Result<(), NoMemory> {
    for token in TOKENS {
        tree.push(*token)?;
    }
    Ok(())
}

fn tree_by_hand(alloc: Global) -> Result<TreeBuf, NoMemory> {
    let mut tree = TreeBuf::new(alloc);
    push_tokens(&mut tree)?;
    Ok(tree)
}

fn has_tokens(tree: &TreeBuf) -> bool {
    tree.len() == 4
        && tree.iter().count() == 4
        && tree.get(2).copied() == Some(TreeToken::ByNegative)
        && tree.get(4).is_none()
}

fn is_made(alloc: Global) -> bool {
    match tree_by_hand(alloc) {
        Ok(tree) => has_tokens(&tree),
        Err(NoMemory) => false,
    }
}

#[test]
fn trees_are_made_by_hand(rt: HostRuntime) {
    assert!(rt; TreeBuf::new(rt.alloc()).is_empty());
    assert!(rt; is_made(rt.alloc()));
}

// Whether a tree of so many times the tokens keeps them where others share them.
fn shares(alloc: Global, times: usize) -> Result<bool, NoMemory> {
    let mut tree = TreeBuf::new(alloc);
    for _ in 0..times {
        push_tokens(&mut tree)?;
    }
    let mut tokens = Vec::new(alloc);
    tokens.extend_from_slice(tree.as_slice())?;
    let tree = tree.shareable(alloc)?;
    let other = tree.copy(alloc)?;
    Ok(tree.as_slice() == tokens.as_slice() && other.as_slice() == tokens.as_slice())
}

// The tokens of a short tree stand in the value itself.
#[test]
fn trees_share_their_tokens(rt: HostRuntime) {
    assert!(rt; shares(rt.alloc(), 1) == Ok(true));
    assert!(rt; shares(rt.alloc(), 20) == Ok(true));
}

fn proof_by_hand(alloc: Global) -> Result<Omissions, NoMemory> {
    let tuple = Tuple::of(alloc, &[(0, 10), (1, 1)])?;
    let tree = tree_by_hand(alloc)?;
    let mut proof = Omissions::empty(alloc, ProofForm::Two);
    proof.push(Omission { tuple, tree })?;
    Ok(proof)
}

fn has_one(alloc: Global, proof: &Omissions) -> bool {
    proof.get(0).is_some()
        && proof.get(1).is_none()
        && is_written(alloc, proof, b"pict-proof 2\nomit 0=10 1=1 : B1 L2 N O30\n")
}

fn is_written_by_hand(alloc: Global) -> bool {
    match proof_by_hand(alloc) {
        Ok(proof) => has_one(alloc, &proof),
        Err(NoMemory) => false,
    }
}

#[test]
fn proofs_are_made_by_hand(rt: HostRuntime) {
    assert!(rt; is_written_by_hand(rt.alloc()));
}

#[test]
fn files_that_are_no_proofs_are_refused(rt: HostRuntime) {
    for (text, line) in BROKEN {
        assert!(rt; end_of(rt.alloc(), text) == Some(*line), "{text}");
    }
}

// The same of the text with this line at its end.
fn end_behind(alloc: Global, text: &str, line: &str) -> Option<u32> {
    match format!(in alloc; "{text}{line}\n") {
        Ok(file) => end_of(alloc, file.as_str()),
        Err(_) => None,
    }
}

#[test]
fn lines_that_are_no_omissions_are_refused(rt: HostRuntime) {
    for line in NO_LINES {
        let end = end_behind(rt.alloc(), "pict-proof 1\nomit 0=1 1=1 : L1\n", line);
        assert!(rt; end == Some(3), "{line}");
    }
}

#[test]
fn tokens_that_are_no_citations_are_refused(rt: HostRuntime) {
    for token in NO_CITATIONS {
        let end = end_behind(rt.alloc(), "pict-proof 2\nomit 0=1 : ", token);
        assert!(rt; end == Some(2), "{token}");
    }
}

// Whether a fault is told as this.
fn is_told_as(alloc: Global, fault: ProofFault, text: &str) -> bool {
    match format!(in alloc; "{fault}") {
        Ok(told) => told.as_str() == text,
        Err(_) => false,
    }
}

#[test]
fn faults_say_what_they_are(rt: HostRuntime) {
    assert!(rt;
        is_told_as(
            rt.alloc(),
            ProofFault::Line(6),
            "line 6 is not a proof line"
        )
    );
    assert!(rt; is_told_as(rt.alloc(), ProofFault::NoMemory, "memory was refused"));
}
