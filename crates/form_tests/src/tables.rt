//! Tables of texts.

use row_forms::RowForm;
use std::alloc::Global;
use value_text::NoMemory;

/// A cell.
pub(crate) type Cell = Option<&'static str>;

/// The names of the columns of a table, and its rows.
#[derive(Clone, Copy, Drop)]
pub(crate) struct Table {
    pub names: &'static [&'static str],
    pub rows: &'static [&'static [Cell]],
}

/// Every character of ASCII that prints.
pub(crate) const PRINTABLE: &str =
    " !\"#$%&'()*+,-./0123456789:;<=>?@ABCDEFGHIJKLMNOPQRSTUVWXYZ[\\]^_`abcdefghijklmnopqrstuvwxyz{|}~";

/// Cells that call for quotes, and some that don't.
pub(crate) const MIXED: Table = Table {
    names: &["\u{feff}First", "b,c"],
    rows: &[
        &[Some("say \"hi\""), Some(" x")],
        &[None, Some("")],
        &[Some("ä€😀"), Some("\u{feff}y")],
        &[Some("l\nm"), Some("x y")],
        &[Some("c\rd"), Some("z\t")],
        &[Some("\u{1}"), Some("null")],
    ],
};

/// One column.
pub(crate) const NARROW: Table = Table {
    names: &["A"],
    rows: &[&[Some("")], &[None], &[Some("x")]],
};

/// One column without a name, and a row.
pub(crate) const UNNAMED: Table = Table {
    names: &[""],
    rows: &[&[Some("\u{feff}")]],
};

/// Each character that prints.
pub(crate) const ASCII: Table = Table {
    names: &["P", PRINTABLE],
    rows: &[&[Some(PRINTABLE), Some("x")]],
};

/// No row.
pub(crate) const EMPTY: Table = Table {
    names: &["A", "B"],
    rows: &[],
};

/// All of these.
pub(crate) const TABLES: &[Table] = &[MIXED, NARROW, UNNAMED, ASCII, EMPTY];

/// The text of a table in a form; without the rows that haven't a cell for each column, of which these tables have
/// none.
pub(crate) fn written(alloc: Global, form: RowForm, table: Table) -> Result<Vec<u8>, NoMemory> {
    let mut text = Vec::new(alloc);
    form.add_head(table.names, &mut text)?;
    let mut first = true;
    for row in table.rows {
        if row.len() == table.names.len() {
            form.add_row(table.names, first, row, &mut text)?;
            first = false;
        }
    }
    text.extend_from_slice(form.tail())?;
    Ok(text)
}
