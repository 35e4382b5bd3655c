ghost use Rattle.std.specs.Prelude.{◌≡◌, ◌||◌, [], ◌++◌, false, option_map, IfOk, OnOk};
ghost use Rattle.acts_front.specs.believed.ParameterLines.{folds, has_repeated, is_declared, parameter_in, read_parameter};
ghost use Rattle.acts_front.specs.Reading.{Reads, parameter_seen};
ghost use Rattle.acts_front.specs.believed.Translation.{parameter_text};

use crate::code::{ActsCode, ActsFault};
use crate::kind::{Kind, is_name};
use crate::name_set::has_repeated;
use crate::scope::Scope;
use crate::text::{begins_with, cut_first, pieces, trimmed, without_first_blanks};
use crate::write::put_list;
use std::alloc::Global;
use value_text::NoMemory;

/// A parameter as its line declares it (ACTS guide).
#[derive(Drop)]
pub(crate) struct Parameter<'a> {
    /// Its name.
    pub(crate) name: &'a [u8],
    /// Its type.
    pub(crate) kind: Kind,
    /// Its values, as they stand.
    pub(crate) values: Vec<&'a [u8]>,
}

impl<'a> Parameter<'a> {
    /// The parameter of a line; `None` where the line hasn't the form of one.
    pub(crate) fn read(alloc: Global, text: &'a [u8]) -> Result<Option<Parameter<'a>>, NoMemory>
        ensures { IfOk result (λ param. option_map parameter_seen param ≡ parameter_in text.now) }
    {
        let (name, behind) = cut_first(text, b'(');
        let (kind, behind) = cut_first(behind, b')');
        let name = trimmed(name);
        let behind = without_first_blanks(behind);
        let Some(kind) = Kind::of(trimmed(kind)) else {
            return Ok(None);
        };
        if !is_name(name) || !begins_with(behind, b':') {
            return Ok(None);
        }
        let values = pieces(alloc, &behind[1..])?;
        if !kind.has_values(values.as_slice()) {
            return Ok(None);
        }
        Ok(Some(Parameter { name, kind, values }))
    }
}

impl Parameter<'_> {
    /// Adds the line that it becomes.
    pub(crate) fn put(&self, alloc: Global, out: &mut Vec<u8>) -> Result<(), NoMemory>
        ensures { OnOk result (out.new.items ≡ out.old.items ++ parameter_text (parameter_seen self.now)) }
    {
        out.extend_from_slice(self.name)?;
        out.extend_from_slice(b": ")?;
        let values = self.kind.printed(alloc, self.values.as_slice())?;
        put_list(out, values.as_slice())
    }
}

impl Scope<'_> {
    // Whether the name of a parameter is declared, or one of its values is repeated.
    fn is_repeated(&self, alloc: Global, param: &Parameter<'_>) -> Result<bool, NoMemory>
        ensures { IfOk result (λ repeated. repeated ≡ (is_declared self.now param.now.name.now
            || has_repeated (folds self.now.fold param.now.kind) [] (parameter_seen param.now).values)) }
    {
        let folds = param.kind.folds(self.fold());
        Ok(
            self.declares(alloc, param.name)?
                || has_repeated(alloc, param.values.as_slice(), folds)?,
        )
    }

    /// The parameter of a line behind those that are declared.
    ///
    /// # Errors
    ///
    /// `Bad` with this line and `A3` where it hasn't the form of a parameter line, with `A4` where the name is declared
    /// or a value is repeated; `NoMemory` where memory was refused.
    pub(crate) fn parameter<'a>(
        &self,
        alloc: Global,
        line: u32,
        text: &'a [u8],
    ) -> Result<Parameter<'a>, ActsFault>
        ensures value { Reads line parameter_seen (read_parameter self.now text.now) result }
        ensures fresh { IfOk result (λ param. is_declared self.now param.name.now ≡ false) }
    {
        let Some(param) = Parameter::read(alloc, text)? else {
            return Err(ActsFault::Bad(line, ActsCode::A3));
        };
        if self.is_repeated(alloc, &param)? {
            return Err(ActsFault::Bad(line, ActsCode::A4));
        }
        Ok(param)
    }
}
