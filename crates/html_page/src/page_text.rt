ghost use Rattle.std.specs.Prelude.{◌≡◌, ◌++◌, [], ◌∷◌, map, OnOk};
ghost use Rattle.std.specs.List.{flat_map};
ghost use Rattle.html_page.specs.believed.Pieces.{attribute_text, attributes_text, end_text, escape, pieces_text, piece_text, start_text, title_text};
ghost use Rattle.html_page.specs.Seen.{attribute_seen, id_attribute, piece_seen};

use crate::attribute::{Attribute, AttributeName};
use crate::escape::put_escaped;
use crate::piece::Piece;
use crate::style::STYLE;
use std::alloc::Global;
use std::marker::Model;
use value_text::NoMemory;

/// The text of a page so far. Contracts see its bytes.
#[derive(Drop)]
pub struct PageText {
    bytes: Vec<u8>,
}

impl Model for PageText {
    ghost use Rattle.std.specs.Prelude.{List, ℕ};

    ghost Value = { List ℕ };

    ghost view = { λ page. page.bytes.items };
}

impl PageText {
    /// No text yet. Takes no memory.
    pub fn new(alloc: Global) -> PageText
        ensures { result ≡ [] }
    {
        PageText {
            bytes: Vec::new(alloc),
        }
    }

    /// The bytes so far.
    pub fn as_bytes(&self) -> &[u8]
        ensures { result.now ≡ self.now }
    {
        self.bytes.as_slice()
    }

    /// The bytes, with their memory.
    pub fn into_bytes(self) -> Vec<u8>
        ensures { result.items ≡ self }
    {
        self.bytes
    }

    /// Takes the text away and keeps its memory, so that a page can be written a part at a time.
    pub fn clear(&mut self)
        ensures { self.new ≡ [] }
    {
        self.bytes.clear();
    }

    // Adds texts as they are.
    fn put_plain(&mut self, texts: &[&str]) -> Result<(), NoMemory>
        ensures { OnOk result (self.new ≡ self.old ++ flat_map (λ text. text.now) texts.now) }
    {
        for text in texts {
            self.bytes.extend_from_slice(text.as_bytes())?;
        }
        Ok(())
    }

    // Adds a text, escaped.
    fn put_text(&mut self, text: &[u8]) -> Result<(), NoMemory>
        ensures { OnOk result (self.new ≡ self.old ++ escape text.now) }
    {
        put_escaped(&mut self.bytes, text)
    }

    // Adds an attribute.
    fn put_attribute(&mut self, attribute: &Attribute<'_>) -> Result<(), NoMemory>
        ensures { OnOk result (self.new ≡ self.old ++ attribute_text (attribute_seen attribute.now)) }
    {
        self.put_plain(&[" ", attribute.name.text(), "=\""])?;
        self.put_text(attribute.value.as_bytes())?;
        self.put_plain(&["\""])
    }

    // Adds attributes.
    fn put_attributes(&mut self, attributes: &[Attribute<'_>]) -> Result<(), NoMemory>
        ensures { OnOk result (self.new ≡ self.old ++ attributes_text (map attribute_seen attributes.now)) }
    {
        for attribute in attributes {
            self.put_attribute(attribute)?;
        }
        Ok(())
    }

    // Adds a start tag.
    fn put_start(&mut self, name: &str, attributes: &[Attribute<'_>]) -> Result<(), NoMemory>
        ensures { OnOk result (self.new ≡ self.old ++ start_text name.now (map attribute_seen attributes.now)) }
    {
        self.put_plain(&["<", name])?;
        self.put_attributes(attributes)?;
        self.put_plain(&[">"])
    }

    // Adds an end tag.
    fn put_end(&mut self, name: &str) -> Result<(), NoMemory>
        ensures { OnOk result (self.new ≡ self.old ++ end_text name.now) }
    {
        self.put_plain(&["</", name, ">"])
    }

    // Adds a `title` element.
    fn put_title(&mut self, attributes: &[Attribute<'_>], text: &str) -> Result<(), NoMemory>
        ensures { OnOk result (self.new ≡ self.old ++ title_text (map attribute_seen attributes.now) text.now) }
    {
        self.put_start("title", attributes)?;
        self.put_text(text.as_bytes())?;
        self.put_end("title")
    }

    // Adds a `title` element with an `id`.
    fn put_title_with_id(&mut self, id: &str, text: &str) -> Result<(), NoMemory>
        ensures { OnOk result (self.new ≡ self.old ++ title_text (id_attribute id.now ∷ []) text.now) }
    {
        let attributes = [Attribute {
            name: AttributeName::Id,
            value: id,
        }];
        self.put_title(&attributes, text)
    }

    // Adds a piece.
    fn put_piece(&mut self, piece: &Piece<'_, '_>) -> Result<(), NoMemory>
        ensures { OnOk result (self.new ≡ self.old ++ piece_text (piece_seen piece.now)) }
    {
        match piece {
            Piece::Doctype => self.put_plain(&["<!doctype html>"]),
            Piece::Start(tag) => self.put_start(tag.name(), &[]),
            Piece::StartWith(tag, attributes) => self.put_start(tag.name(), attributes),
            Piece::Meta(attributes) => self.put_start("meta", attributes),
            Piece::Title(text) => self.put_title(&[], text),
            Piece::TitleWithId(id, text) => self.put_title_with_id(id, text),
            Piece::Style => self.put_plain(&["<style>", STYLE, "</style>"]),
            Piece::Text(text) => self.put_text(text.as_bytes()),
            Piece::Bytes(text) => self.put_text(text),
            Piece::End(tag) => self.put_end(tag.name()),
        }
    }

    /// Adds pieces, in order. After a refusal the text may end amid a piece.
    ///
    /// # Errors
    ///
    /// `NoMemory` where the text could not grow.
    pub fn put(&mut self, pieces: &[Piece<'_, '_>]) -> Result<(), NoMemory>
        ensures { OnOk result (self.new ≡ self.old ++ pieces_text (map piece_seen pieces.now)) }
    {
        for piece in pieces {
            self.put_piece(piece)?;
        }
        Ok(())
    }
}
