//! Where the names of values stand in a parameter line.
use crate::pieces::{pieces, value_list};
use crate::span::Span;
use cov_model::{Param, TestModel};
use model_lex::Marks;
use std::alloc::Global;
use std::str::from_utf8;
use value_text::{NoMemory, same_text};

// A parameter line of a model file.
#[derive(Clone, Copy)]
pub(crate) struct ParamLine<'f> {
    pub(crate) file: &'f [u8],
    pub(crate) model: &'f TestModel,
    pub(crate) marks: Marks,
    pub(crate) line: Span,
}

// The names of a line so far, each once, and where one stands that stood before.
#[derive(Drop)]
struct Repeats<'f> {
    names: Vec<&'f str>,
    places: Vec<Span>,
}

// Whether a text is digits between blanks.
fn is_weight(file: &[u8], inside: Span) -> bool {
    let digits = inside.trimmed(file).bytes(file);
    !digits.is_empty() && digits.iter().all(|byte| byte.is_ascii_digit())
}

// A piece without its weight.
fn without_weight(file: &[u8], piece: Span) -> Span {
    let [body @ .., b')'] = piece.bytes(file) else {
        return piece;
    };
    match body.iter().rposition(|byte| *byte == b'(') {
        Some(open) if is_weight(file, piece.part(open.saturating_add(1), body.len())) => {
            piece.part(0, open)
        }
        _ => piece,
    }
}

// What stands between the angle brackets of a reference, without blanks.
fn referred(file: &[u8], piece: Span) -> Option<Span> {
    match piece.bytes(file) {
        [b'<', .., b'>'] => Some(piece.inside(file)),
        _ => None,
    }
}

// Whether a parameter has a value of a name.
fn has_name(param: &Param, name: &str, fold: bool) -> bool {
    for value in param.values.as_slice() {
        for own in value.names.as_slice() {
            if same_text(own.as_str(), name, fold) {
                return true;
            }
        }
    }
    false
}

impl<'f> ParamLine<'f> {
    // The text of a part.
    fn text(&self, part: Span) -> &'f str {
        match from_utf8(part.bytes(self.file)) {
            Ok(text) => text,
            Err(_) => "",
        }
    }

    // The pieces of the list of values, without blanks.
    fn pieces(&self, alloc: Global) -> Result<Vec<Span>, NoMemory> {
        self.parts(
            alloc,
            value_list(self.file, self.line),
            self.marks.separator,
        )
    }

    // The parts of a part between a mark, without blanks.
    fn parts(&self, alloc: Global, whole: Span, mark: u8) -> Result<Vec<Span>, NoMemory> {
        let mut parts = Vec::new(alloc);
        for part in pieces(alloc, self.file, whole, mark)?.as_slice() {
            parts.push(part.trimmed(self.file))?;
        }
        Ok(parts)
    }

    // The names of a piece that is no reference, each with the mark of invalid values where it has one.
    fn names(&self, alloc: Global, piece: Span) -> Result<Vec<Span>, NoMemory> {
        self.parts(alloc, without_weight(self.file, piece), self.marks.alias)
    }

    // A name without the mark of invalid values.
    fn plain_name(&self, name: Span) -> &'f str {
        match name.bytes(self.file) {
            [first, ..] if *first == self.marks.prefix => {
                self.text(name.part(1, usize::MAX).trimmed(self.file))
            }
            _ => self.text(name),
        }
    }

    // The parameter to which a reference refers.
    fn param_named(&self, name: Span) -> Option<&'f Param> {
        let name = self.text(name);
        let fold = self.model.fold();
        self.model
            .params()
            .as_slice()
            .iter()
            .find(|param| same_text(param.name.as_str(), name, fold))
    }

    // Whether a name of a value comes from a piece that is a reference.
    fn is_of_reference(&self, name: &str, referred: Span) -> bool {
        match self.param_named(referred) {
            Some(param) => has_name(param, name, self.model.fold()),
            None => false,
        }
    }

    // The place of a name of a value in a piece: where it is written, or the reference by which it comes.
    fn name_in(&self, alloc: Global, name: &str, piece: Span) -> Result<Option<Span>, NoMemory> {
        if let Some(referred) = referred(self.file, piece) {
            let is_here = self.is_of_reference(name, referred);
            return Ok(if is_here { Some(piece) } else { None });
        }
        for part in self.names(alloc, piece)?.as_slice() {
            if same_text(self.plain_name(*part), name, self.model.fold()) {
                return Ok(Some(*part));
            }
        }
        Ok(None)
    }

    // The first place of a name of a value.
    pub(crate) fn name(&self, alloc: Global, name: &str) -> Result<Option<Span>, NoMemory> {
        for piece in self.pieces(alloc)?.as_slice() {
            if let Some(place) = self.name_in(alloc, name, *piece)? {
                return Ok(Some(place));
            }
        }
        Ok(None)
    }

    // Adds a name that stands at a place.
    fn add_name(
        &self,
        name: &'f str,
        place: Span,
        repeats: &mut Repeats<'f>,
    ) -> Result<(), NoMemory> {
        let fold = self.model.fold();
        let mut known = repeats.names.as_slice().iter();
        if known.any(|one| same_text(one, name, fold)) {
            repeats.places.push(place)?;
        } else {
            repeats.names.push(name)?;
        }
        Ok(())
    }

    // Adds the names of the values of a parameter, which come by a reference at a place.
    fn add_values(
        &self,
        param: &'f Param,
        place: Span,
        repeats: &mut Repeats<'f>,
    ) -> Result<(), NoMemory> {
        for value in param.values.as_slice() {
            for name in value.names.as_slice() {
                self.add_name(name.as_str(), place, repeats)?;
            }
        }
        Ok(())
    }

    // Adds the names that a piece stands for.
    fn add_piece(
        &self,
        alloc: Global,
        piece: Span,
        repeats: &mut Repeats<'f>,
    ) -> Result<(), NoMemory> {
        if let Some(referred) = referred(self.file, piece) {
            return match self.param_named(referred) {
                Some(param) => self.add_values(param, piece, repeats),
                None => Ok(()),
            };
        }
        for part in self.names(alloc, piece)?.as_slice() {
            self.add_name(self.plain_name(*part), *part, repeats)?;
        }
        Ok(())
    }

    // Where the names stand that stood in the line before.
    pub(crate) fn repeated_names(&self, alloc: Global) -> Result<Vec<Span>, NoMemory> {
        let mut repeats = Repeats {
            names: Vec::new(alloc),
            places: Vec::new(alloc),
        };
        for piece in self.pieces(alloc)?.as_slice() {
            self.add_piece(alloc, *piece, &mut repeats)?;
        }
        Ok(repeats.places)
    }
}
