ghost use Rattle.std.specs.Prelude.{◌≡◌, ◌≤◌, ◌^◌, [], false, length, Some, IfOk, OnOk};
ghost use Rattle.std.specs.Result.{result_map_both};
ghost use Rattle.acts_front.specs.believed.ActsFiles.{OfParameter, constraint_line, line_gives, line_in, parameter_line, relation_line, section_behind, section_in, text_gives};
ghost use Rattle.acts_front.specs.believed.ParameterLines.{is_declared, read_parameter};
ghost use Rattle.acts_front.specs.Reading.{Adds, IsAdded, Translates, ended, parameter_seen, tokens_seen};
ghost use Rattle.acts_front.specs.believed.RelationLines.{read_relation};
ghost use Rattle.acts_front.specs.believed.SameModels.{IsFaithful};
ghost use Rattle.acts_front.specs.believed.Tokens.{tokens_found};
ghost use Rattle.acts_front.specs.believed.Translation.{parameter_text, translated_text, translation};

use crate::code::{ActsCode, ActsFault};
use crate::line::{are_allowed, line_text};
use crate::parameter::Parameter;
use crate::scope::Scope;
use crate::section::Section;
use crate::text::begins_with;
use crate::token::{Token, tokens_found};
use crate::write::{end_line, put_constraint};
use model_lex::{cut_line, without_mark};
use std::alloc::Global;
use value_text::NoMemory;

// What is known behind some lines: the section that they end in, the parameters that they declare, and their
// translation.
#[derive(Drop)]
struct Translator<'a> {
    section: Section,
    scope: Scope<'a>,
    text: Vec<u8>,
}

impl<'a> Translator<'a> {
    // No lines.
    fn new(alloc: Global, fold: bool) -> Translator<'a>
        ensures text { result.text.items ≡ [] }
        ensures scope { result.scope ≡ record { fold = fold; params = [] } }
        ensures section { result.section ≡ Section.Outside }
    {
        Translator {
            section: Section::Outside,
            scope: Scope::new(alloc, fold),
            text: Vec::new(alloc),
        }
    }

    // Adds a parameter that a line declares, and its text.
    fn put_parameter(&mut self, alloc: Global, param: &Parameter<'a>) -> Result<(), NoMemory>
        requires { is_declared self.old.scope param.now.name.now ≡ false }
        ensures { OnOk result (IsAdded self.old self.new self.old.section (OfParameter (parameter_seen param.now)) (parameter_text (parameter_seen param.now))) }
    {
        param.put(alloc, &mut self.text)?;
        self.scope.add(alloc, param.name, param.kind)
    }

    // Adds the text of a parameter line.
    fn add_parameter(&mut self, alloc: Global, line: u32, text: &'a [u8]) -> Result<(), ActsFault>
        ensures { Adds line self.old.section translated_text (parameter_line (read_parameter self.old.scope text.now)) self.old (result_map_both (λ _. self.new) (λ fault. fault) result) }
    {
        let param = self.scope.parameter(alloc, line, text)?;
        self.put_parameter(alloc, &param)?;
        Ok(())
    }

    // Adds the text of a relation line.
    fn add_relation(&mut self, alloc: Global, line: u32, text: &[u8]) -> Result<(), ActsFault>
        ensures { Adds line self.old.section translated_text (relation_line (read_relation self.old.scope text.now)) self.old (result_map_both (λ _. self.new) (λ fault. fault) result) }
    {
        let relation = self.scope.relation(alloc, line, text)?;
        relation.put(&mut self.text)?;
        Ok(())
    }

    // Adds the text of the constraint of some tokens.
    fn add_tokens(
        &mut self,
        alloc: Global,
        line: u32,
        tokens: &[Token<'_>],
    ) -> Result<(), ActsFault>
        ensures { Adds line self.old.section translated_text (constraint_line self.old.scope (Some (tokens_seen tokens.now))) self.old (result_map_both (λ _. self.new) (λ fault. fault) result) }
    {
        if let Some(code) = self.scope.constraint(alloc, tokens)?.code() {
            return Err(ActsFault::Bad(line, code));
        }
        put_constraint(&mut self.text, tokens)?;
        Ok(())
    }

    // Adds the text of a constraint line.
    fn add_constraint(&mut self, alloc: Global, line: u32, text: &[u8]) -> Result<(), ActsFault>
        ensures { Adds line self.old.section translated_text (constraint_line self.old.scope (tokens_found text.now)) self.old (result_map_both (λ _. self.new) (λ fault. fault) result) }
    {
        match tokens_found(alloc, text)? {
            Some(tokens) => self.add_tokens(alloc, line, tokens.as_slice()),
            None => Err(ActsFault::Bad(line, ActsCode::A9)),
        }
    }

    // Adds a text that is no header and isn't empty.
    fn add_in_section(&mut self, alloc: Global, line: u32, text: &'a [u8]) -> Result<(), ActsFault>
        ensures { Adds line self.old.section translated_text (line_in self.old.section self.old.scope text.now) self.old (result_map_both (λ _. self.new) (λ fault. fault) result) }
    {
        match self.section {
            Section::Outside => Err(ActsFault::Bad(line, ActsCode::A2)),
            Section::System => Ok(()),
            Section::Parameters => self.add_parameter(alloc, line, text),
            Section::Relations => self.add_relation(alloc, line, text),
            Section::Constraints => self.add_constraint(alloc, line, text),
        }
    }

    // Adds the text of a line.
    fn add_text(&mut self, alloc: Global, line: u32, text: &'a [u8]) -> Result<(), ActsFault>
        ensures { Adds line (section_in self.old.section text.now) translated_text (text_gives self.old.section self.old.scope text.now) self.old
            (result_map_both (λ _. self.new) (λ fault. fault) result) }
    {
        if text.is_empty() {
            return Ok(());
        }
        if !begins_with(text, b'[') {
            return self.add_in_section(alloc, line, text);
        }
        match self.section.begun(text) {
            Some(section) => {
                self.section = section;
                Ok(())
            }
            None => Err(ActsFault::Bad(line, ActsCode::A2)),
        }
    }

    // Adds a line.
    fn add_line(&mut self, alloc: Global, number: u32, line: &'a [u8]) -> Result<(), ActsFault>
        ensures { Adds number (section_behind self.old.section line.now) ended (line_gives self.old.section self.old.scope line.now) self.old
            (result_map_both (λ _. self.new) (λ fault. fault) result) }
    {
        if !are_allowed(line) {
            return Err(ActsFault::Bad(number, ActsCode::A1));
        }
        self.add_text(alloc, number, line_text(line))?;
        end_line(&mut self.text)?;
        Ok(())
    }
}

/// Translates a file in the form of ACTS to a model file for `pict`, line by line (ACTS guide, PICT's guide; the
/// form and the texts are this project's rules). Letters of either case are one where `fold` is set. The file may
/// have at most 2^28 bytes.
///
/// # Errors
///
/// `Bad` with the first line that is refused, and `NoMemory` where memory was refused.
pub fn translate(alloc: Global, bytes: &[u8], fold: bool) -> Result<Vec<u8>, ActsFault>
    requires { length bytes.now ≤ 2 ^ 28 }
    // The translation, or the first refusal.
    ensures translated { Translates (translation fold bytes.now) result }
    // What is written says what the file says, whatever the order word: as a model file it spells a model without
    // notes that has the file's parameters, values and relations, and whose constraints hold on the same rows; or it
    // is refused, by a limit or since the order is above the number of parameters.
    ensures meaning { IfOk result (λ text. IsFaithful fold bytes.now text.items) }
{
    let mut translator = Translator::new(alloc, fold);
    let mut number = 0;
    let mut rest = without_mark(bytes);
    while !rest.is_empty() {
        let (line, behind) = cut_line(rest);
        rest = behind;
        number += 1;
        translator.add_line(alloc, number, line)?;
    }
    if translator.scope.is_empty() {
        return Err(ActsFault::Bad(1, ActsCode::A8));
    }
    Ok(translator.text)
}
