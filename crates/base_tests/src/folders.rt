//! Folders of files.

use memory_io::{ByteList, Calls, FileHeld, FileList, MemFolder, SureFolder};
use outside_io::{Folder, InputFolder, ReadAnswer, RealFolder, WriteAnswer};
use std::alloc::Global;
use std::fs;
use std::test::Fail;
use value_text::{NoMemory, Text};

// Calls of a folder in memory with the file `a`, which holds `xyz`, and with room for two bytes in `b`. The
// third call fails.
const READS: &[(&str, usize, ReadAnswer, &str)] = &[
    ("a", 3, ReadAnswer::Whole, "xyz"),
    ("a", 2, ReadAnswer::TooLong, ""),
    ("a", 3, ReadAnswer::Failed, ""),
    ("a", 9, ReadAnswer::Whole, "xyz"),
    ("b", 9, ReadAnswer::Failed, ""),
    ("c", 9, ReadAnswer::Failed, ""),
];

const WRITES: &[(&str, &str, WriteAnswer)] = &[
    ("b", "three", WriteAnswer::Failed),
    ("b", "no", WriteAnswer::Done),
    ("c", "", WriteAnswer::Failed),
    ("a", "u", WriteAnswer::Done),
    ("a", "uvw", WriteAnswer::Done),
];

fn folder_of(alloc: Global) -> Result<MemFolder, NoMemory> {
    let mut fail = Calls::new(alloc);
    fail.push(3)?;
    let mut folder = MemFolder::new(alloc, fail);
    folder.add("a", b"xyz")?;
    folder.room_for("b", 2)?;
    Ok(folder)
}

#[test]
fn a_folder_in_memory_fails_as_told(rt: HostRuntime) -> Result<(), Fail> {
    let mut folder = folder_of(rt.alloc())?;
    let mut into = Vec::new(rt.alloc());
    for (name, most, answer, bytes) in READS {
        assert!(rt;
            folder.read_file(name, &mut into, *most) == *answer,
            "{name} {most}"
        );
        assert!(rt; into.as_slice() == bytes.as_bytes(), "{name} {most}");
    }
    Ok(())
}

#[test]
fn a_folder_in_memory_keeps_what_has_room(rt: HostRuntime) -> Result<(), Fail> {
    let mut folder = folder_of(rt.alloc())?;
    for (name, text, answer) in WRITES {
        let bytes = text.as_bytes();
        assert!(rt; folder.write_file(name, bytes) == *answer, "{name} {text}");
        let is_held = folder.held(name) == Some(bytes);
        assert!(rt; is_held == (*answer == WriteAnswer::Done), "{name} {text}");
    }
    Ok(())
}

#[test]
fn a_folder_in_memory_gives_a_file_whole(rt: HostRuntime) -> Result<(), Fail> {
    let text = Text::copy(rt.alloc(), "A: 1, 2\nB: x, y\n")?;
    assert!(rt; text.as_str() == "A: 1, 2\nB: x, y\n");
    let mut folder = MemFolder::new(rt.alloc(), Calls::new(rt.alloc()));
    folder.add("m", text.as_str().as_bytes())?;
    let mut into = Vec::new(rt.alloc());
    assert!(rt; folder.read_file("m", &mut into, 1 << 22) == ReadAnswer::Whole);
    assert!(rt; into.as_slice() == text.as_str().as_bytes());
    Ok(())
}

#[test]
fn a_sure_folder_never_fails(rt: HostRuntime) -> Result<(), Fail> {
    let mut bytes = ByteList::new(rt.alloc());
    bytes.push(b'x')?;
    let name = Text::copy(rt.alloc(), "a")?;
    let mut files = FileList::new(rt.alloc());
    files.push(FileHeld { name, bytes })?;
    let mut folder = SureFolder::new(files);
    let mut into = Vec::new(rt.alloc());
    assert!(rt; folder.read_file("a", &mut into, 0) == ReadAnswer::TooLong);
    assert!(rt; folder.read_file("a", &mut into, 1) == ReadAnswer::Whole);
    assert!(rt; into.as_slice() == b"x".as_slice());
    assert!(rt; folder.write_file("a", b"uv") == WriteAnswer::Done);
    assert!(rt; folder.read_file("a", &mut into, 0) == ReadAnswer::Whole);
    assert!(rt; into.is_empty());
    Ok(())
}

#[test]
fn a_real_folder_keeps_files(rt: HostRuntime) -> Result<(), Fail> {
    let name = "base_tests_file";
    let mut folder = RealFolder::new(rt);
    let mut into = Vec::new(rt.alloc());
    assert!(rt; folder.write_file(name, b"old text") == WriteAnswer::Done);
    assert!(rt; folder.write_file(name, b"xyz") == WriteAnswer::Done);
    assert!(rt; folder.read_file(name, &mut into, 2) == ReadAnswer::TooLong);
    assert!(rt; folder.read_file(name, &mut into, 3) == ReadAnswer::Whole);
    assert!(rt; into.as_slice() == b"xyz".as_slice());
    fs::remove_file(&rt, name)?;
    assert!(rt; folder.read_file(name, &mut into, 3) == ReadAnswer::Failed);
    assert!(rt; folder.write_file("", b"xyz") == WriteAnswer::Failed);
    Ok(())
}

#[test]
fn a_real_folder_replaces_files(rt: HostRuntime) -> Result<(), Fail> {
    let name = "base_tests_replaced";
    let mut folder = RealFolder::new(rt);
    let mut into = Vec::new(rt.alloc());
    assert!(rt; folder.replace_file(name, b"old text") == WriteAnswer::Done);
    assert!(rt; folder.replace_file(name, b"xyz") == WriteAnswer::Done);
    assert!(rt; folder.read_file(name, &mut into, 9) == ReadAnswer::Whole);
    assert!(rt; into.as_slice() == b"xyz".as_slice());
    assert!(rt; !fs::exists(&rt, "base_tests_replaced.part")?);
    // a file that stands where the new one would be made stays as it is
    assert!(rt; folder.write_file("base_tests_replaced.part", b"kept") == WriteAnswer::Done);
    assert!(rt; folder.replace_file(name, b"uv") == WriteAnswer::Done);
    assert!(rt; folder.read_file(name, &mut into, 9) == ReadAnswer::Whole);
    assert!(rt; into.as_slice() == b"uv".as_slice());
    assert!(rt; folder.read_file("base_tests_replaced.part", &mut into, 9) == ReadAnswer::Whole);
    assert!(rt; into.as_slice() == b"kept".as_slice());
    fs::remove_file(&rt, "base_tests_replaced.part")?;
    fs::remove_file(&rt, name)?;
    assert!(rt; folder.replace_file("no_such_place/file", b"xyz") == WriteAnswer::Failed);
    Ok(())
}

#[test]
fn a_hyphen_names_the_input(rt: HostRuntime) -> Result<(), Fail> {
    let input: &[u8] = b"from a stream";
    let mut folder = InputFolder::new(rt, input);
    let mut into = Vec::new(rt.alloc());
    assert!(rt; folder.read_file("-", &mut into, 99) == ReadAnswer::Whole);
    assert!(rt; into.as_slice() == b"from a stream".as_slice());
    assert!(rt; folder.read_file("-", &mut into, 99) == ReadAnswer::Whole);
    assert!(rt; into.is_empty());
    assert!(rt; folder.read_file("no_such_file", &mut into, 99) == ReadAnswer::Failed);
    Ok(())
}
