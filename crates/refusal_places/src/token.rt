use crate::span::Span;
use model_lex::TokenKind;

/// A token of the constraints, and where it stands in the file.
#[derive(Clone, Copy)]
pub(crate) struct PlacedToken {
    pub(crate) kind: TokenKind,
    pub(crate) span: Span,
}

impl PlacedToken {
    // Whether the token is a keyword or a mark, in any case.
    pub(crate) fn is(&self, file: &[u8], word: &[u8]) -> bool {
        self.span.bytes(file).eq_ignore_ascii_case(word)
    }
}
