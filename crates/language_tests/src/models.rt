//! The parameters and the groups of models.

ghost use Rattle.model_parse.specs.RawModels.{AreOpts};

use crate::refusals::told;
use cov_model::{Demand, Group, Param, TestModel, Value};
use model_lex::{Marks, ModelFault, ModelOpts, NoteList, OrderWord, split_model};
use model_parse::{RawModel, parse_params};
use std::alloc::{AllocError, Global};
use test_models::{options, read};
use value_text::Text;

// Adds a number and a text.
fn put(alloc: Global, number: u32, behind: &str, into: &mut String) -> Result<(), AllocError> {
    let text = format!(in alloc; "{number}{behind}")?;
    into.push_str(text.as_str())
}

fn put_names(names: &[Text], into: &mut String) -> Result<(), AllocError> {
    for (at, name) in names.iter().enumerate() {
        into.push_str(if at > 0 { "|" } else { "" })?;
        into.push_str(name.as_str())?;
    }
    Ok(())
}

// ` ~a|b(5)` for a negative value a with the alias b and the weight 5.
fn show_value(alloc: Global, value: &Value, into: &mut String) -> Result<(), AllocError> {
    into.push_str(if value.negative { " ~" } else { " " })?;
    put_names(value.names.as_slice(), into)?;
    if value.weight != 1 {
        into.push_str("(")?;
        put(alloc, value.weight, ")", into)?;
    }
    Ok(())
}

// `2#A: 1 2` for a numeric parameter A of line 2 with the values 1 and 2.
fn show_param(alloc: Global, param: &Param, into: &mut String) -> Result<(), AllocError> {
    put(
        alloc,
        param.line,
        if param.numeric { "#" } else { "" },
        into,
    )?;
    into.push_str(param.name.as_str())?;
    into.push_str(":")?;
    for value in param.values.as_slice() {
        show_value(alloc, value, into)?;
    }
    into.push_str("\n")
}

fn show_group(alloc: Global, group: &Group, into: &mut String) -> Result<(), AllocError> {
    for p in group.members.as_slice() {
        put(alloc, u32::from(*p), " ", into)?;
    }
    into.push_str("@ ")?;
    put(alloc, group.order, "\n", into)
}

fn show_groups(alloc: Global, groups: &[Group], into: &mut String) -> Result<(), AllocError> {
    for group in groups {
        show_group(alloc, group, into)?;
    }
    Ok(())
}

fn show_notes(alloc: Global, notes: &NoteList, into: &mut String) -> Result<(), AllocError> {
    for note in notes.as_slice() {
        into.push_str("note ")?;
        put(alloc, note.line, "\n", into)?;
    }
    Ok(())
}

// The parameters, the order, the sub-models, behind `and` the relations, and the lines of the notes.
fn show(
    alloc: Global,
    params: &[Param],
    demand: &Demand,
    notes: &NoteList,
    into: &mut String,
) -> Result<(), AllocError> {
    for param in params {
        show_param(alloc, param, into)?;
    }
    into.push_str("order ")?;
    put(alloc, demand.order, "\n", into)?;
    show_groups(alloc, demand.subs.as_slice(), into)?;
    into.push_str("and\n")?;
    show_groups(alloc, demand.relations.as_slice(), into)?;
    show_notes(alloc, notes, into)
}

// Whether parameters, a demand and notes are shown so.
fn are_shown_so(
    alloc: Global,
    params: &[Param],
    demand: &Demand,
    notes: &NoteList,
    shown: &str,
) -> bool {
    let mut text = String::new(alloc);
    match show(alloc, params, demand, notes, &mut text) {
        Ok(()) => text.as_str() == shown,
        Err(AllocError) => false,
    }
}

// Whether a model keeps the prefix and the letters of these options, and is shown so with its notes.
fn are_shown(
    alloc: Global,
    model: &TestModel,
    notes: &NoteList,
    opts: &ModelOpts,
    shown: &str,
) -> bool {
    if model.prefix() != opts.marks.prefix || model.fold() != opts.fold {
        return false;
    }
    are_shown_so(
        alloc,
        model.params().as_slice(),
        model.demand(),
        notes,
        shown,
    )
}

// The same of the model of a file.
fn is_shown(alloc: Global, file: &str, opts: &ModelOpts, shown: &str) -> bool
    requires { AreOpts opts.now }
{
    match read(alloc, file, opts) {
        Ok((model, notes)) => are_shown(alloc, &model, &notes, opts, shown),
        Err(_) => false,
    }
}

const MODELS: &[(&str, &str)] = &[
    ("A: 1, 2\nB: x, y\n", "1#A: 1 2\n2B: x y\norder 2\nand\n"),
    (
        " A \t:a , A,b\nB:x",
        "1A: a b\n2B: x\norder 2\nand\nnote 1\n",
    ),
    (
        "A: 1, 2\nB: <A>, 3, <a>",
        "1#A: 1 2\n2#B: 1 2 3\norder 2\nand\nnote 2\nnote 2\n",
    ),
    (
        "A: 1, 2 (5)\nB: x, y, Foo (bar)",
        "1#A: 1 2(5)\n2B: x y Foo (bar)\norder 2\nand\n",
    ),
    (
        "A: ~-1, 0 | zero | ~null ( 007 ), ~ x|ZERO\n#\nB: < a >, (1)x, x() (4294967295)\n{a, b}\n@ 01 {B}\n{ B } @ 1",
        "1A: ~-1 0|zero|null(7) ~x\n3B: ~-1 0|zero|null(7) ~x (1)x x()(4294967295)\norder 2\n0 1 @ 2\n1 @ 1\nand\n1 @ 1\nnote 1\n",
    ),
    (
        "A: x (0000000000000000000000000000007), y\nB: z",
        "1A: x(7) y\n2B: z\norder 2\nand\n",
    ),
    // A no-break space is no blank.
    (
        "A: \u{a0}1, 2\nB: x",
        "1A: \u{a0}1 2\n2B: x\norder 2\nand\n",
    ),
    (
        "A: 99999999999999999999999999999\nB: 9999999999999999999999999999.5, ~1",
        "1A: 99999999999999999999999999999\n2#B: 9999999999999999999999999999.5 ~1\norder 2\nand\n",
    ),
    (
        "A: 1|x, 2\nB: <, <>x",
        "1#A: 1|x 2\n2B: < <>x\norder 2\nand\n",
    ),
    (
        "A:a\nB:b\nC:c\n\t{ A}\n{A , b, C }@2\n@2{C,A}",
        "1A: a\n2B: b\n3C: c\norder 2\n0 @ 1\n0 1 2 @ 2\nand\n2 0 @ 2\n",
    ),
];

#[test]
fn reads_models(rt: HostRuntime) {
    for (file, shown) in MODELS {
        assert!(rt; is_shown(rt.alloc(), file, &options(2), shown), "{file}");
    }
}

// Other marks, all parameters at once, and letters of either case are two.
fn other_options() -> ModelOpts
    ensures { AreOpts result }
{
    ModelOpts {
        order: OrderWord::Max,
        marks: Marks {
            separator: b';',
            alias: b'/',
            prefix: b'!',
        },
        fold: false,
    }
}

#[test]
fn reads_by_other_marks(rt: HostRuntime) {
    let file = "A: 1; 2,5\nB: a;A;!b/~c\n{ A; B }";
    let shown = "1A: 1 2,5\n2B: a A ~b|~c\norder 2\n0 1 @ 2\nand\n";
    assert!(rt; is_shown(rt.alloc(), file, &other_options(), shown));
}

// What the parameter lines and group lines of a file say.
fn parsed(alloc: Global, bytes: &[u8]) -> Result<RawModel, ModelFault> {
    if bytes.len() > 100 {
        return Err(ModelFault::NoMemory);
    }
    let sections = split_model(alloc, bytes)?;
    parse_params(alloc, &sections, &options(2))
}

// Whether two parameters are parsed, the order, and no note.
fn is_parsed(alloc: Global) -> bool {
    let shown = "1#A: 1 2\n2B: x y\norder 2\nand\n";
    match parsed(alloc, b"A: 1, 2\nB: x, y\n") {
        Ok(raw) => are_shown_so(alloc, raw.params.as_slice(), &raw.demand, &raw.notes, shown),
        Err(_) => false,
    }
}

// Whether a file without a line is refused.
fn is_empty_refused(alloc: Global) -> bool {
    match parsed(alloc, b"") {
        Ok(_) => false,
        Err(fault) => told(fault) == ("M17", 1),
    }
}

#[test]
fn parses_parameters(rt: HostRuntime) {
    assert!(rt; is_parsed(rt.alloc()));
    assert!(rt; is_empty_refused(rt.alloc()));
}
