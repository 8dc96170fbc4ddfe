use crate::checks::{check_bytes, check_value};
use bfgp_outside::{MemoryShelf, ReadRefusal, RealShelf, Shelf, read_whole};
use flag_rules::{OutOfMemory, Text};
use std::alloc::Global;
use std::fs;
use std::process::Abort;
use std::test::Fail;

/// What a shelf gives of a file up to a limit.
fn read_of<S: Shelf>(
    alloc: Global,
    shelf: &mut S,
    name: &[u8],
    limit: u64,
) -> Result<Text, ReadRefusal> {
    read_whole(alloc, shelf, name, limit)
}

fn add(shelf: &mut MemoryShelf, name: &[u8], bytes: &[u8]) -> Result<(), OutOfMemory> {
    shelf.add(name, bytes)
}

fn add_files(shelf: &mut MemoryShelf) -> Result<(), OutOfMemory> {
    add(shelf, b"file", b"older")?;
    add(shelf, b"empty", b"")?;
    add(shelf, b"file", b"12345")
}

/// A shelf of files in memory, of which a read may fail.
fn shelf_of(alloc: Global, failing: Option<u64>) -> Result<MemoryShelf, OutOfMemory> {
    let mut shelf = MemoryShelf::new(alloc);
    add_files(&mut shelf)?;
    fail_at(&mut shelf, failing)?;
    Ok(shelf)
}

fn fail_at(shelf: &mut MemoryShelf, failing: Option<u64>) -> Result<(), OutOfMemory> {
    match failing {
        Some(call) => shelf.fail_at(call),
        None => Ok(()),
    }
}

// The name of a file, the limit, the read that fails, and what is read.
type Reading = (
    &'static str,
    u64,
    Option<u64>,
    Result<&'static str, ReadRefusal>,
);

const READINGS: &[Reading] = &[
    ("file", 5, None, Ok("12345")),
    ("file", 4, None, Err(ReadRefusal::TooLong)),
    ("file", u64::MAX, Some(2), Ok("12345")),
    ("file", 5, Some(0), Err(ReadRefusal::Failed)),
    ("file", 5, Some(1), Err(ReadRefusal::Failed)),
    ("fil", 5, None, Err(ReadRefusal::Absent)),
    ("empty", 0, None, Ok("")),
];

fn check_read<R: Abort>(
    rt: &R,
    name: &str,
    got: Result<Text, ReadRefusal>,
    want: Result<&str, ReadRefusal>,
) {
    match (got, want) {
        (Ok(bytes), Ok(text)) => check_bytes(rt, bytes.as_slice(), text.as_bytes()),
        (got, want) => check_value(rt, name, &got.err(), &want.err()),
    }
}

#[test]
fn files_are_read_whole_up_to_the_limit(rt: HostRuntime) -> Result<(), Fail> {
    for &(name, limit, failing, want) in READINGS {
        let mut shelf = shelf_of(rt.alloc(), failing)?;
        let got = read_of(rt.alloc(), &mut shelf, name.as_bytes(), limit);
        check_read(&rt, name, got, want);
    }
    Ok(())
}

/// What is read up to a limit of a file that is longer than a piece.
fn read_of_long(alloc: Global, bytes: &[u8], limit: u64) -> Result<Text, ReadRefusal> {
    let mut shelf = MemoryShelf::new(alloc);
    add(&mut shelf, b"long", bytes)?;
    read_of(alloc, &mut shelf, b"long", limit)
}

#[test]
fn a_file_of_more_than_one_piece_is_read_whole(rt: HostRuntime) -> Result<(), Fail> {
    let bytes = vec![in rt.alloc(); b'x'; 70_000]?;
    let read = read_of_long(rt.alloc(), &bytes, 70_000)?;
    check_bytes(&rt, read.as_slice(), bytes.as_slice());
    let refused = read_of_long(rt.alloc(), &bytes, 69_999).err();
    check_value(&rt, "long", &refused, &Some(ReadRefusal::TooLong));
    Ok(())
}

// The name of a file of the system, and why it is not read.
const REFUSALS: &[(&[u8], ReadRefusal)] = &[
    (b"none", ReadRefusal::Absent),
    (b"\xff", ReadRefusal::Failed),
    (b".", ReadRefusal::Failed),
];

fn check_refusals<R: Abort, S: Shelf>(rt: &R, alloc: Global, shelf: &mut S) {
    for &(name, want) in REFUSALS {
        let refused = read_of(alloc, shelf, name, 5).err();
        check_value(rt, "system", &refused, &Some(want));
    }
}

#[test]
fn a_file_of_the_system_is_read(rt: HostRuntime) -> Result<(), Fail> {
    fs::write(&rt, "held", "12345")?;
    let mut shelf = RealShelf::new(&rt);
    let read = read_of(rt.alloc(), &mut shelf, b"held", 5)?;
    check_bytes(&rt, read.as_slice(), b"12345");
    check_refusals(&rt, rt.alloc(), &mut shelf);
    fs::remove_file(&rt, "held")?;
    Ok(())
}
