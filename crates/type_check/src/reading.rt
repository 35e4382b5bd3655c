ghost use Rattle.std.specs.Prelude.{◌≡◌, ◌≢◌, ◌≤◌, ◌^◌, ◌⊎◌, Ok, Err, IfOk, IfErr, length};
ghost use Rattle.model_lex.specs.Sections.{AreSections, split_seen};
ghost use Rattle.model_parse.specs.RawModels.{AreOpts};
ghost use Rattle.type_check.specs.believed.ModelOf.{Answer, IsAnswerIn, IsAnswerOf, IsModelOf, IsRefusalOf};

use crate::scope::Scope;
use constraint_ast::parse_rules;
use cov_model::TestModel;
use model_lex::{ModelFault, ModelOpts, NoteList, Sections, split_model};
use model_parse::parse_params;
use std::alloc::Global;

// The model of the sections of a file, with its notes.
fn read_sections(
    alloc: Global,
    sections: &Sections<'_>,
    opts: &ModelOpts,
) -> Result<(TestModel, NoteList), ModelFault>
    requires sections { AreSections sections.now }
    requires opts { AreOpts opts.now }
    ensures ok { IfOk result (λ read. IsAnswerIn opts.now (split_seen sections.now) (Ok read)) }
    ensures err { IfErr result (λ fault. fault ≢ ModelFault.NoMemory → IsAnswerIn opts.now (split_seen sections.now) (Err fault)) }
{
    let raw = parse_params(alloc, sections, opts)?;
    let trees = parse_rules(alloc, sections)?;
    let scope = Scope {
        params: raw.params.as_slice(),
        fold: opts.fold,
    };
    let rules = scope.rules(alloc, trees.as_slice())?;
    let model = TestModel::new(raw.params, rules, raw.demand, opts.marks.prefix, opts.fold);
    Ok((model, raw.notes))
}

/// The model that a model file spells, with its notes (PICT's guide; the ACTS guide for relations;
/// the details are this project's rules). The file may have at most 2^28 bytes.
///
/// # Errors
///
/// The refusal of the first pass that refuses the file: that of `split_model`, else that of
/// `parse_params`, else that of `parse_rules`. Else, by the constraints in order and their terms
/// from the left, `BadRule` at the line of the term's first token: with `UnknownParameter` where a
/// parameter that it names isn't declared, with `LikeNeedsText` where LIKE is asked of a numeric
/// parameter, with `TypeMismatch` where a number is compared with a parameter that isn't numeric,
/// a text with one that is, or a numeric parameter with one that isn't. Last `Limit` with `Rules`
/// where there are more than 4,096 constraints. `NoMemory` where memory was refused.
pub fn read_model(
    alloc: Global,
    bytes: &[u8],
    opts: &ModelOpts,
) -> Result<(TestModel, NoteList), ModelFault>
    requires len { length bytes.now ≤ 2 ^ 28 }
    requires opts { AreOpts opts.now }
    ensures ok { IfOk result (λ read. IsModelOf opts.now bytes.now read.0 read.1) }
    ensures err { IfErr result (λ fault. fault ≢ ModelFault.NoMemory → IsRefusalOf opts.now bytes.now fault) }
    ensures only { (answer : Answer) → IsAnswerOf opts.now bytes.now answer → (result ≡ answer) ⊎ (result ≡ Err ModelFault.NoMemory) }
{
    let sections = split_model(alloc, bytes)?;
    read_sections(alloc, &sections, opts)
}
