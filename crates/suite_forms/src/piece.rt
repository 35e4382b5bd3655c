ghost use Rattle.std.specs.Prelude.{◌≡◌, IfOk};
ghost use Rattle.std.specs.Option.{option_copied};
ghost use Rattle.row_forms.specs.believed.Forms.{piece};

use row_forms::{Column, RowForm};
use std::alloc::Global;
use std::marker::Model;
use value_text::{NoMemory, OwnedList};

/// What stands in a row for a cell. Contracts see its bytes.
#[derive(Drop)]
pub(crate) struct Piece {
    bytes: Vec<u8>,
}

/// The pieces of the names of a value, in order.
pub(crate) type NamePieces = OwnedList<Piece>;

/// The pieces of the values of a parameter, in order.
pub(crate) type ValuePieces = OwnedList<NamePieces>;

impl Model for Piece {
    ghost use Rattle.std.specs.Prelude.{List, ℕ};

    ghost Value = { List ℕ };

    ghost view = { λ piece. piece.bytes.items };
}

impl Piece {
    /// What stands in a row of a form for a cell of a column.
    ///
    /// # Errors
    ///
    /// `NoMemory` where memory was refused.
    pub(crate) fn new(
        alloc: Global,
        form: RowForm,
        column: Column<'_>,
        cell: Option<&str>,
    ) -> Result<Piece, NoMemory>
        ensures { IfOk result (λ made. made
            ≡ piece form column.entry.is_first column.entry.is_only column.entry.name.now (option_copied cell.entry)) }
    {
        let mut bytes = Vec::new(alloc);
        form.add_piece(column, cell, &mut bytes)?;
        Ok(Piece { bytes })
    }

    /// Its bytes.
    pub(crate) fn as_slice(&self) -> &[u8]
        ensures { result.now ≡ self.now }
    {
        self.bytes.as_slice()
    }
}
