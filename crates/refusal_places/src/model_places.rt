//! Where the parameters, values, constraints and terms of a model stand in its file.
ghost use Rattle.std.specs.Prelude.{◌≤◌, ◌^◌, length};

use crate::column::column_of;
use crate::file_lines::{file_start, line_from};
use crate::pieces::param_name;
use crate::span::Span;
use crate::terms::terms_of;
use crate::token::PlacedToken;
use crate::tokens::constraint_tokens;
use crate::value_places::ParamLine;
use cov_model::{Param, TestModel};
use model_lex::{Marks, TokenKind};
use std::alloc::Global;
use value_text::NoMemory;

/// Where the parameters, the values, the constraints and their terms of a model stand in its file. Each call
/// gives a column of a line, from 1, in characters; 0 where what is asked for isn't found.
#[derive(Drop)]
pub struct ModelPlaces<'f> {
    file: &'f [u8],
    model: &'f TestModel,
    marks: Marks,
    // Where each line begins.
    lines: Vec<usize>,
    tokens: Vec<PlacedToken>,
    // The number of the first token of each constraint.
    starts: Vec<usize>,
}

// Where each line of a file begins.
fn line_starts(alloc: Global, file: &[u8]) -> Result<Vec<usize>, NoMemory> {
    let mut starts = Vec::new(alloc);
    starts.push(file_start(file))?;
    for (i, byte) in file.iter().enumerate() {
        if *byte == b'\n' {
            starts.push(i + 1)?;
        }
    }
    Ok(starts)
}

// The number of the first token of each constraint.
fn constraint_starts(
    alloc: Global,
    file: &[u8],
    tokens: &[PlacedToken],
) -> Result<Vec<usize>, NoMemory> {
    let mut starts = Vec::new(alloc);
    starts.push(0)?;
    for (i, token) in tokens.iter().enumerate() {
        if token.is(file, b";") {
            starts.push(i + 1)?;
        }
    }
    Ok(starts)
}

// Whether a token is an element of a list, where it stands in one.
fn is_element(token: &PlacedToken) -> bool {
    token.kind == TokenKind::Words || token.kind == TokenKind::Number
}

// The element at a place of a list that stands in a term.
fn element_in(tokens: &[PlacedToken], term: Span, place: usize) -> Option<Span> {
    let mut elements = tokens.iter().filter(|token| {
        term.from <= token.span.from && token.span.to <= term.to && is_element(token)
    });
    match elements.nth(place) {
        Some(token) => Some(token.span),
        None => None,
    }
}

impl<'f> ModelPlaces<'f> {
    /// Of a model, in the file that spells it with these marks.
    ///
    /// # Errors
    ///
    /// `NoMemory` where memory is refused.
    pub fn new(
        alloc: Global,
        file: &'f [u8],
        marks: Marks,
        model: &'f TestModel,
    ) -> Result<ModelPlaces<'f>, NoMemory>
        requires { length file.now ≤ 2 ^ 22 }
    {
        let lines = line_starts(alloc, file)?;
        let tokens = constraint_tokens(alloc, file)?.tokens;
        let starts = constraint_starts(alloc, file, tokens.as_slice())?;
        Ok(ModelPlaces {
            file,
            model,
            marks,
            lines,
            tokens,
            starts,
        })
    }

    // A line without its line end; nothing at the end of the file where there is no such line.
    fn line(&self, line: u32) -> Span {
        let end = self.file.len();
        let from = match self.lines.get((line as usize).saturating_sub(1)) {
            Some(from) => (*from).min(end),
            None => end,
        };
        line_from(self.file, from, line)
    }

    // The column where a part begins.
    fn column(&self, part: Span) -> u32 {
        let from = part.from.min(self.file.len());
        let start = self.line(part.line).from.min(from);
        column_of(&self.file[start..from])
    }

    // The column where a part begins, if one was found.
    fn column_if(&self, part: Option<Span>) -> u32 {
        match part {
            Some(part) => self.column(part),
            None => 0,
        }
    }

    // The number of the first token of the constraint at a place, from 0; of all tokens where there is none.
    fn start(&self, i: usize) -> usize
        ensures { result ≤ length self.now.tokens.items }
    {
        match self.starts.get(i) {
            Some(start) => (*start).min(self.tokens.len()),
            None => self.tokens.len(),
        }
    }

    // The tokens of the constraint of a number.
    fn tokens_of(&self, number: u32) -> &[PlacedToken] {
        let to = self.start(number as usize);
        let from = self.start((number as usize).saturating_sub(1)).min(to);
        &self.tokens.as_slice()[from..to]
    }

    // Where the constraint of a number begins.
    fn beginning(&self, number: u32) -> Option<Span> {
        match self.tokens_of(number) {
            [first, ..] => Some(first.span),
            [] => None,
        }
    }

    // A part of a constraint, if it begins in the line of the constraint; else where that begins.
    fn in_line_of(&self, number: u32, part: Option<Span>) -> Option<Span> {
        let beginning = self.beginning(number)?;
        match part {
            Some(part) if part.line == beginning.line => Some(part),
            _ => Some(beginning),
        }
    }

    // The term at a place of a constraint.
    fn term_at(&self, alloc: Global, number: u32, place: usize) -> Result<Option<Span>, NoMemory> {
        let terms = terms_of(alloc, self.file, self.tokens_of(number))?;
        Ok(terms.get(place).copied())
    }

    /// Where the constraint of a number begins.
    pub fn constraint(&self, number: u32) -> u32 {
        self.column_if(self.beginning(number))
    }

    /// Where the term at a place of a constraint begins, if that is in the line of the constraint; else where the
    /// constraint begins.
    ///
    /// # Errors
    ///
    /// `NoMemory` where memory is refused.
    pub fn term(&self, alloc: Global, number: u32, place: usize) -> Result<u32, NoMemory> {
        let term = self.term_at(alloc, number, place)?;
        Ok(self.column_if(self.in_line_of(number, term)))
    }

    /// The same of an element of the list of an IN term.
    ///
    /// # Errors
    ///
    /// `NoMemory` where memory is refused.
    pub fn element(
        &self,
        alloc: Global,
        number: u32,
        place: usize,
        element: usize,
    ) -> Result<u32, NoMemory> {
        let found = match self.term_at(alloc, number, place)? {
            Some(term) => element_in(self.tokens_of(number), term, element),
            None => None,
        };
        Ok(self.column_if(self.in_line_of(number, found)))
    }

    /// Where the name of a parameter begins in its line.
    pub fn parameter(&self, param: &Param) -> u32 {
        self.column(param_name(self.file, self.line(param.line)))
    }

    // The line of a parameter.
    fn param_line(&self, param: &Param) -> ParamLine<'f> {
        ParamLine {
            file: self.file,
            model: self.model,
            marks: self.marks,
            line: self.line(param.line),
        }
    }

    /// Where a name of a value stands in the line of its parameter: with the mark of invalid values, if it has
    /// one; the reference by which the value comes, where it isn't written there.
    ///
    /// # Errors
    ///
    /// `NoMemory` where memory is refused.
    pub fn value_name(&self, alloc: Global, param: &Param, name: &str) -> Result<u32, NoMemory> {
        let found = self.param_line(param).name(alloc, name)?;
        Ok(self.column_if(found))
    }

    /// Where names of values stand in the line of their parameter that stood there before, in order.
    ///
    /// # Errors
    ///
    /// `NoMemory` where memory is refused.
    pub fn repeated_names(&self, alloc: Global, param: &Param) -> Result<Vec<u32>, NoMemory> {
        let mut columns = Vec::new(alloc);
        for name in self.param_line(param).repeated_names(alloc)?.as_slice() {
            columns.push(self.column(*name))?;
        }
        Ok(columns)
    }
}
