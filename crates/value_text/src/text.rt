ghost use Rattle.std.specs.Prelude.{◌≡◌, IfOk};
ghost use Rattle.std.specs.Str.{IsUtf8};

use crate::no_memory::NoMemory;
use crate::owned_list::OwnedList;
use std::alloc::Global;
use std::marker::Model;

/// An owned UTF-8 text. Contracts see its bytes.
#[derive(Drop)]
pub struct Text {
    inner: String,
}

/// A list of texts.
pub type TextList = OwnedList<Text>;

impl Model for Text {
    ghost use Rattle.std.specs.Prelude.{List, ℕ};
    ghost use Rattle.std.specs.String.{string_bytes};

    ghost Value = { List ℕ };

    ghost view = { λ text. string_bytes text.inner };
}

impl Text {
    /// An owned copy of a text.
    ///
    /// # Errors
    ///
    /// `NoMemory` where the copy could not be made.
    pub fn copy(alloc: Global, text: &str) -> Result<Text, NoMemory>
        ensures { IfOk result (λ copied. copied ≡ text.now) }
    {
        let inner = String::from_str(alloc, text)?;
        Ok(Text { inner })
    }

    /// The text, borrowed. Takes no memory.
    pub fn as_str(&self) -> &str
        ensures value { result.now ≡ self.now }
        ensures utf8 { IsUtf8 self.now }
    {
        self.inner.as_str()
    }
}
