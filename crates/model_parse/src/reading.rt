use crate::name_set::NameSet;
use cov_model::{ParamList, ValueList};
use model_lex::NoteList;

/// What has been read of the values of a parameter.
#[derive(Drop)]
pub struct Reading {
    /// The values so far.
    pub values: ValueList,
    /// Their names.
    pub known: NameSet,
    /// The notes so far, of earlier lines too.
    pub notes: NoteList,
}

/// What has been read of the parameter lines.
#[derive(Drop)]
pub struct ParamsRead {
    /// The parameters so far.
    pub params: ParamList,
    /// Their names.
    pub known: NameSet,
    /// The notes so far.
    pub notes: NoteList,
}
