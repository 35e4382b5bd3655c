ghost use Rattle.std.specs.Prelude.{◌≡◌, ◌+◌, ◌<◌, ◌≤◌, ◌^◌, ◌++◌, [], None, Some, MatchBool, MatchOption, All, IfOk, IfSome, bytes_eq, codes, length, map, option_map};
ghost use Rattle.std.specs.List.{after_first, before_first};
ghost use Rattle.cov_model.specs.Tuples.{IsRising};
ghost use Rattle.definitions.specs.Laws.{IsOmissionOf};
ghost use Rattle.definitions.specs.believed.ProofText.{is_colon_word, is_rising, omissions_of, read_each, read_format, read_lines, read_omission, read_pair, read_token};
ghost use Rattle.refutation.specs.Checking.{AreOfModel};
ghost use Rattle.refutation.specs.believed.Proofs.{format_of};
ghost use Rattle.refutation.specs.Proofs.{meant, omission_meant};
ghost use Rattle.refutation.specs.Repeats.{IsReadTree};
ghost use Rattle.refutation.specs.Reading.{Gives, LacksTree, LacksTuple, ReadsTree, ReadsTuple, omissions_meant, pieces, proof_meant};

use crate::cutting::{Words, most_pieces, split_once};
use crate::fault::ProofFault;
use crate::omissions::{Omission, Omissions, ProofForm};
use crate::spelling::Spelling;
use crate::token::TreeBuf;
use cov_model::{ParamNo, TestModel, Tuple, ValueNo};
use smallvec::SmallVec;
use std::alloc::Global;
use value_text::NoMemory;

// The fewest bytes of the line of an omission, as `omit 0=0 : N`.
const LEAST_LINE: usize = 12;

// A tree that was read, with its text.
#[derive(Drop)]
struct ReadTree<'l> {
    text: &'l [u8],
    tree: TreeBuf,
}

// Whether a word is the one that begins the line of an omission.
fn is_omit(word: &[u8]) -> bool
    ensures { result ≡ bytes_eq word.now (codes "omit") }
{
    word == b"omit".as_slice()
}

// Whether a word is the one that parts pairs from tokens.
fn is_colon(word: &[u8]) -> bool
    ensures { result ≡ is_colon_word word.now }
{
    word == b":".as_slice()
}

// Whether the parameters rise.
fn is_rising(pairs: &[(ParamNo, ValueNo)]) -> bool
    ensures { result ≡ is_rising pairs.now }
{
    for i in 1..pairs.len() {
        if pairs[i - 1].0 >= pairs[i].0 {
            return false;
        }
    }
    true
}

// The format that a first line gives.
fn read_format(line: &[u8]) -> Option<ProofForm>
    ensures { option_map format_of result ≡ read_format line.now }
{
    if line == b"pict-proof 1".as_slice() {
        return Some(ProofForm::One);
    }
    if line == b"pict-proof 2".as_slice() {
        return Some(ProofForm::Two);
    }
    None
}

impl<'a> Spelling<'a> {
    // Reads pairs up to a colon. Whether each word before it is one.
    fn read_pairs(
        &self,
        words: &mut Words,
        pairs: &mut SmallVec<(ParamNo, ValueNo), 8>,
    ) -> Result<bool, NoMemory>
        requires { pairs.old.items ≡ [] }
        ensures { IfOk result (λ read. MatchBool read
            ((read_each (read_pair self.now.model) (before_first is_colon_word words.old) ≡ Some pairs.new.items) × (after_first is_colon_word words.old ≡ words.new))
            (read_each (read_pair self.now.model) (before_first is_colon_word words.old) ≡ None)) }
    {
        while let Some(word) = words.next() {
            if is_colon(word) {
                return Ok(true);
            }
            let Some(pair) = self.read_pair(word) else {
                return Ok(false);
            };
            pairs.push(pair)?;
        }
        Ok(true)
    }

    // Reads tokens to the end. Whether each word is one.
    fn read_tokens(&self, words: &mut Words, tree: &mut TreeBuf) -> Result<bool, NoMemory>
        requires { tree.old ≡ [] }
        ensures { IfOk result (λ read. MatchBool read
            (read_each (read_token self.now.model (format_of self.now.form)) words.old ≡ Some (map meant tree.new))
            (read_each (read_token self.now.model (format_of self.now.form)) words.old ≡ None)) }
    {
        while let Some(word) = words.next() {
            let Some(token) = self.read_token(word) else {
                return Ok(false);
            };
            tree.push(token)?;
        }
        Ok(true)
    }

    // Reads a tuple: pairs up to a colon, whose parameters rise.
    fn read_tuple(&self, alloc: Global, words: &mut Words) -> Result<Option<Tuple>, NoMemory>
        ensures { IfOk result (λ read. MatchOption read (LacksTuple self.now.model words.old) (ReadsTuple self.now.model words.old words.new)) }
    {
        let mut pairs = SmallVec::new(alloc);
        if !self.read_pairs(words, &mut pairs)? {
            return Ok(None);
        }
        if pairs.is_empty() || !is_rising(pairs.as_slice()) {
            return Ok(None);
        }
        let tuple = Tuple::of(alloc, pairs.as_slice())?;
        Ok(Some(tuple))
    }

    // Reads a tree: one or more tokens.
    fn read_new_tree(&self, alloc: Global, words: &mut Words) -> Result<Option<TreeBuf>, NoMemory>
        ensures { IfOk result (λ read. MatchOption read (LacksTree self.now.model (format_of self.now.form) words.old)
            (λ tree. ReadsTree self.now.model (format_of self.now.form) words.old (map meant tree))) }
    {
        let mut tree = TreeBuf::with_room(alloc, words.most())?;
        if !self.read_tokens(words, &mut tree)? {
            return Ok(None);
        }
        if tree.is_empty() {
            return Ok(None);
        }
        Ok(Some(tree))
    }

    // The tree before, where the words are its own.
    fn repeated_tree(
        &self,
        alloc: Global,
        words: &Words,
        before: &Option<ReadTree<'_>>,
    ) -> Result<Option<TreeBuf>, NoMemory>
        requires { IfSome before.now (IsReadTree self.now) }
        ensures { IfOk result (λ copy. IfSome copy (λ tree. ReadsTree self.now.model (format_of self.now.form) words.now (map meant tree))) }
    {
        let Some(known) = before else {
            return Ok(None);
        };
        if !words.are_of(known.text) {
            return Ok(None);
        }
        let tree = known.tree.copy(alloc)?;
        Ok(Some(tree))
    }

    // The same, given the tree before: most trees of a proof are that of the line before.
    fn read_tree<'l>(
        &self,
        alloc: Global,
        words: &mut Words<'l>,
        before: &mut Option<ReadTree<'l>>,
    ) -> Result<Option<TreeBuf>, NoMemory>
        requires { IfSome before.old (IsReadTree self.now) }
        ensures read { IfOk result (λ read. MatchOption read (LacksTree self.now.model (format_of self.now.form) words.old)
            (λ tree. ReadsTree self.now.model (format_of self.now.form) words.old (map meant tree))) }
        ensures before { IfOk result (λ read. IfSome before.new (IsReadTree self.now)) }
    {
        if let Some(tree) = self.repeated_tree(alloc, words, before)? {
            return Ok(Some(tree));
        }
        let left = words.left();
        let Some(tree) = self.read_new_tree(alloc, words)? else {
            return Ok(None);
        };
        let tree = tree.shareable(alloc)?;
        if let Some(text) = left {
            *before = Some(ReadTree {
                text,
                tree: tree.copy(alloc)?,
            });
        }
        Ok(Some(tree))
    }

    // Reads the line of an omission, given the tree before.
    fn read_omission<'l>(
        &self,
        alloc: Global,
        line: &'l [u8],
        before: &mut Option<ReadTree<'l>>,
    ) -> Result<Option<Omission>, NoMemory>
        requires { IfSome before.old (IsReadTree self.now) }
        ensures read { IfOk result (λ read. option_map omission_meant read ≡ read_omission self.now.model (format_of self.now.form) line.now) }
        ensures before { IfOk result (λ read. IfSome before.new (IsReadTree self.now)) }
    {
        let mut words = Words::of(line);
        let Some(word) = words.next() else {
            return Ok(None);
        };
        if !is_omit(word) {
            return Ok(None);
        }
        let Some(tuple) = self.read_tuple(alloc, &mut words)? else {
            return Ok(None);
        };
        let Some(tree) = self.read_tree(alloc, &mut words, before)? else {
            return Ok(None);
        };
        Ok(Some(Omission { tuple, tree }))
    }

    // Reads the lines from the second one on, of which each is an omission's.
    fn read_lines(&self, alloc: Global, bytes: &[u8]) -> Result<Omissions, ProofFault>
        requires { length bytes.now ≤ 2 ^ 28 }
        ensures read { Gives (λ proof. omissions_meant proof.omissions) result (read_lines self.now.model (format_of self.now.form) 2 (pieces 10 bytes.now)) }
        ensures form { IfOk result (λ proof. proof.form ≡ self.now.form) }
        ensures few { IfOk result (λ proof. length proof.omissions ≤ length bytes.now) }
    {
        let most = most_pieces(bytes, b'\n', LEAST_LINE);
        let mut proof = Omissions::with_room(alloc, self.form(), most)?;
        let mut rest = bytes;
        let mut line = 2;
        let mut before = None;
        while let Some((text, behind)) = split_once(rest, b'\n') {
            let Some(omission) = self.read_omission(alloc, text, &mut before)? else {
                return Err(ProofFault::Line(line));
            };
            proof.push(omission)?;
            rest = behind;
            line += 1;
        }
        if !rest.is_empty() {
            return Err(ProofFault::Line(line));
        }
        Ok(proof)
    }
}

/// Reads a proof file for a model (this project's rule): its format, and its omissions in order, whose
/// parameters, values, constraints and cited numbers exist. Whether a tree refutes its tuple isn't
/// asked here. The bytes may be at most 2^28.
///
/// # Errors
///
/// `Line` with the number of the first line, from 1, that isn't one of a proof: for an empty file the
/// number is 1, and a rest behind the last line feed is no line. `NoMemory` where there is no room.
pub fn read_omissions(
    alloc: Global,
    bytes: &[u8],
    model: &TestModel,
) -> Result<Omissions, ProofFault>
    requires { length bytes.now ≤ 2 ^ 28 }
    ensures read { Gives proof_meant result (omissions_of model.now bytes.now) }
    ensures spelled { IfOk result (λ proof. All (IsOmissionOf model.now (format_of proof.form)) (omissions_meant proof.omissions)) }
    ensures of_model { IfOk result (λ proof. All (λ omission. AreOfModel model.now omission.tuple) proof.omissions) }
    ensures few { IfOk result (λ proof. length proof.omissions ≤ length bytes.now) }
{
    model.assert_invariant();
    let Some((line, rest)) = split_once(bytes, b'\n') else {
        return Err(ProofFault::Line(1));
    };
    let Some(form) = read_format(line) else {
        return Err(ProofFault::Line(1));
    };
    let proof = Spelling::new(model, form).read_lines(alloc, rest)?;
    Ok(proof)
}
