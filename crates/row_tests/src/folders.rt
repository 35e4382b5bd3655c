//! Files that are read from a folder.

use command_line::{FileKind, load_model, read_whole};
use cov_model::TestModel;
use memory_io::{Calls, MemFolder};
use model_lex::NoteList;
use std::alloc::Global;
use test_models::options;
use value_text::NoMemory;

const MODEL: &[u8] = b"A: 1, 2, 1\nB: x, y\n";

const ROWS: &[u8] = b"A\tB\n1\tx\n";

// A folder with a model and a row file.
fn folder_of(alloc: Global) -> Result<MemFolder, NoMemory> {
    let mut folder = MemFolder::new(alloc, Calls::new(alloc));
    folder.add("m", MODEL)?;
    folder.add("r", ROWS)?;
    Ok(folder)
}

// Whether the row file is read.
fn reads_rows(alloc: Global, folder: &mut MemFolder) -> bool {
    match read_whole(alloc, FileKind::Rows, "r", folder) {
        Ok(bytes) => bytes.as_slice() == ROWS,
        Err(_) => false,
    }
}

// Whether there are two parameters of two values, and a note on a name that was dropped.
fn is_model(model: &TestModel, notes: &NoteList) -> bool {
    match model.params().as_slice() {
        [a, b] => a.values.len() == 2 && b.values.len() == 2 && notes.len() == 1,
        _ => false,
    }
}

// Whether that is the model of the model file.
fn loads_model(alloc: Global, folder: &mut MemFolder) -> bool {
    match load_model(alloc, "m", &options(2), folder) {
        Ok((model, notes)) => is_model(&model, &notes),
        Err(_) => false,
    }
}

// Whether both are read.
fn loads(alloc: Global) -> bool {
    match folder_of(alloc) {
        Ok(mut folder) => reads_rows(alloc, &mut folder) && loads_model(alloc, &mut folder),
        Err(NoMemory) => false,
    }
}

#[test]
fn reads_files_of_a_folder(rt: HostRuntime) {
    assert!(rt; loads(rt.alloc()));
}
