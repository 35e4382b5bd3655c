ghost use Rattle.std.specs.Prelude.{◌≡◌, ◌&&◌, ◌++◌, is_some, length, nat_lt, option_map, map, IfOk, MatchOption, OnOk, Some, Ok, Err};
ghost use Rattle.std.specs.List.{list_all};
ghost use Rattle.value_text.specs.believed.Numbers.{count_of};
ghost use Rattle.acts_front.specs.believed.ParameterLines.{are_few_digits, is_declared, is_name};
ghost use Rattle.acts_front.specs.Reading.{Reads, relation_seen};
ghost use Rattle.acts_front.specs.believed.RelationLines.{are_members, read_relation, related_in, relation_in, relation_in_parts};
ghost use Rattle.acts_front.specs.believed.Translation.{relation_text};

use crate::code::{ActsCode, ActsFault};
use crate::kind::{are_few_digits, is_name};
use crate::name_set::has_repeated;
use crate::scope::Scope;
use crate::text::{between, cut_first, pieces, trimmed, without_first_blanks};
use crate::write::put_list;
use std::alloc::Global;
use std::str::from_utf8;
use value_text::{NoMemory, read_count};

/// A relation as its line gives it (ACTS guide).
#[derive(Drop)]
pub(crate) struct Relation<'a> {
    /// The names of its members.
    pub(crate) members: Vec<&'a [u8]>,
    /// The digits of its strength.
    pub(crate) strength: &'a [u8],
}

// Whether each text is a name.
fn are_names(texts: &[&[u8]]) -> bool
    ensures { result ≡ list_all (λ text. is_name text.now) texts.now }
{
    texts.iter().all(|text| is_name(text))
}

// Whether some texts may be the members of a relation, and another its strength.
fn are_parts(members: &[&[u8]], strength: &[u8]) -> bool
    ensures { result ≡ (nat_lt 0 (length members.now) && list_all (λ member. is_name member.now) members.now && are_few_digits strength.now) }
{
    !members.is_empty() && are_names(members) && are_few_digits(strength)
}

impl<'a> Relation<'a> {
    // The relation of the parts of its list.
    fn of(mut parts: Vec<&'a [u8]>) -> Option<Relation<'a>>
        ensures { option_map relation_seen result ≡ relation_in_parts (map (λ part. part.now) parts.entry.items) }
    {
        let strength = parts.pop()?;
        if !are_parts(parts.as_slice(), strength) {
            return None;
        }
        Some(Relation {
            members: parts,
            strength,
        })
    }

    /// The relation of a line; `None` where the line hasn't the form of one.
    pub(crate) fn read(alloc: Global, text: &'a [u8]) -> Result<Option<Relation<'a>>, NoMemory>
        ensures { IfOk result (λ relation. option_map relation_seen relation ≡ relation_in text.now) }
    {
        let (name, behind) = cut_first(text, b':');
        let Some(list) = between(without_first_blanks(behind), b'(', b')') else {
            return Ok(None);
        };
        if !is_name(trimmed(name)) {
            return Ok(None);
        }
        let parts = pieces(alloc, list)?;
        Ok(Relation::of(parts))
    }
}

impl Relation<'_> {
    /// Adds the line that it becomes.
    pub(crate) fn put(&self, out: &mut Vec<u8>) -> Result<(), NoMemory>
        ensures { OnOk result (out.new.items ≡ out.old.items ++ relation_text (relation_seen self.now)) }
    {
        out.extend_from_slice(b"@ ")?;
        out.extend_from_slice(self.strength)?;
        out.extend_from_slice(b" { ")?;
        put_list(out, self.members.as_slice())?;
        out.extend_from_slice(b" }")?;
        Ok(())
    }
}

// Whether a strength is from 1 to a number of members.
fn is_strength(digits: &[u8], count: usize) -> bool
    ensures { result ≡ is_some (count_of digits.now 1 count) }
{
    match from_utf8(digits) {
        Ok(text) => read_count(text, 1, count as u64).is_some(),
        Err(_) => false,
    }
}

impl Scope<'_> {
    // Whether the parameters of some names are declared.
    fn declares_all(&self, alloc: Global, names: &[&[u8]]) -> Result<bool, NoMemory>
        ensures { IfOk result (λ all. all ≡ list_all (λ name. is_declared self.now name.now) names.now) }
    {
        for name in names {
            if !self.declares(alloc, name)? {
                return Ok(false);
            }
        }
        Ok(true)
    }

    // Whether some names may be the members of a relation.
    fn are_members(&self, alloc: Global, names: &[&[u8]]) -> Result<bool, NoMemory>
        ensures { IfOk result (λ fit. fit ≡ are_members self.now (map (λ name. name.now) names.now)) }
    {
        if !self.declares_all(alloc, names)? {
            return Ok(false);
        }
        let repeated = has_repeated(alloc, names, self.fold())?;
        Ok(!repeated)
    }

    // Why a relation of this form is refused, if it is.
    fn refusal(&self, alloc: Global, relation: &Relation<'_>) -> Result<Option<ActsCode>, NoMemory>
        ensures { let seen = relation_seen relation.now in IfOk result (λ refusal. MatchOption refusal
            (related_in self.now (Some seen) ≡ Ok seen) (λ code. related_in self.now (Some seen) ≡ Err code)) }
    {
        let members = relation.members.as_slice();
        if !self.are_members(alloc, members)? {
            return Ok(Some(ActsCode::A6));
        }
        if !is_strength(relation.strength, members.len()) {
            return Ok(Some(ActsCode::A7));
        }
        Ok(None)
    }

    /// The relation of a line behind the parameters that are declared.
    ///
    /// # Errors
    ///
    /// `Bad` with this line and `A5` where it hasn't the form of a relation line, with `A6` where a member isn't
    /// declared or is repeated, with `A7` where its strength isn't from 1 to their number; `NoMemory` where memory was
    /// refused.
    pub(crate) fn relation<'a>(
        &self,
        alloc: Global,
        line: u32,
        text: &'a [u8],
    ) -> Result<Relation<'a>, ActsFault>
        ensures { Reads line relation_seen (read_relation self.now text.now) result }
    {
        let Some(relation) = Relation::read(alloc, text)? else {
            return Err(ActsFault::Bad(line, ActsCode::A5));
        };
        match self.refusal(alloc, &relation)? {
            Some(code) => Err(ActsFault::Bad(line, code)),
            None => Ok(relation),
        }
    }
}
