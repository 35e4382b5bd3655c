ghost use Rattle.std.specs.Prelude.{◌≡◌, ◌++◌, true, length, OnOk};
ghost use Rattle.row_forms.specs.Seen.{cells_seen, names_seen};
ghost use Rattle.row_forms.specs.believed.Tables.{head_text, is_single, name_pieces, pieces, row_text};

use crate::adding::add;
use crate::pieces::Column;
use crate::row_form::RowForm;
use value_text::NoMemory;

// Adds the pieces of the names of all columns.
fn add_names(form: RowForm, names: &[&str], into: &mut Vec<u8>) -> Result<(), NoMemory>
    ensures { OnOk result (into.new.items
        ≡ into.old.items ++ name_pieces form true (is_single (names_seen names.now)) (names_seen names.now)) }
{
    let is_only = names.len() == 1;
    let mut is_first = true;
    for name in names {
        let column = Column {
            name: *name,
            is_first,
            is_only,
        };
        form.add_name_piece(column, into)?;
        is_first = false;
    }
    Ok(())
}

// Adds the pieces of the cells of a row.
fn add_cells(
    form: RowForm,
    names: &[&str],
    cells: &[Option<&str>],
    into: &mut Vec<u8>,
) -> Result<(), NoMemory>
    requires { length cells.now ≡ length names.now }
    ensures { OnOk result (into.new.items
        ≡ into.old.items ++ pieces form true (is_single (names_seen names.now)) (names_seen names.now) (cells_seen cells.now)) }
{
    let is_only = names.len() == 1;
    let mut is_first = true;
    for (at, name) in names.iter().enumerate() {
        let column = Column {
            name: *name,
            is_first,
            is_only,
        };
        form.add_piece(column, cells[at], into)?;
        is_first = false;
    }
    Ok(())
}

impl RowForm {
    /// Adds what stands before the rows of a table whose columns have these names.
    ///
    /// # Errors
    ///
    /// `NoMemory` where the vector could not grow.
    pub fn add_head(self, names: &[&str], into: &mut Vec<u8>) -> Result<(), NoMemory>
        ensures { OnOk result (into.new.items ≡ into.old.items ++ head_text self (names_seen names.now)) }
    {
        add_names(self, names, into)?;
        self.add_head_end(names, into)
    }

    /// Adds a row of a table whose columns have these names: a cell for each column. It may be the first row. An
    /// absent cell is null in json, and empty elsewhere.
    ///
    /// # Errors
    ///
    /// `NoMemory` where the vector could not grow.
    pub fn add_row(
        self,
        names: &[&str],
        first: bool,
        cells: &[Option<&str>],
        into: &mut Vec<u8>,
    ) -> Result<(), NoMemory>
        requires { length cells.now ≡ length names.now }
        ensures { OnOk result (into.new.items ≡ into.old.items ++ row_text self (names_seen names.now) first (cells_seen cells.now)) }
    {
        add(self.row_start(first), into)?;
        add_cells(self, names, cells, into)?;
        add(self.row_end(), into)
    }
}
