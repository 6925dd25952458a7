ghost use Rattle.std.specs.Prelude.{◌≤◌};

use outer_io::{FileShelf, MemShelf, MemSink, ReadFault, Shelf, StdSink, read_all, write_all};
use std::alloc::{AllocError, Global};
use std::path::PathBuf;
use std::test::Fail;
use std::{env, fs, process};

const TEXT: &str = "hello, world";

/// Gives a text that name, and those bytes.
fn fill(pair: &mut (String, Vec<u8>), name: &str, text: &[u8]) -> Result<(), AllocError> {
    pair.0.push_str(name)?;
    pair.1.extend_from_slice(text)
}

/// Puts a text of that name on a shelf.
fn push_text(
    alloc: Global,
    texts: &mut Vec<(String, Vec<u8>)>,
    name: &str,
    text: &[u8],
) -> Result<(), AllocError> {
    texts.push((String::new(alloc), Vec::new(alloc)))?;
    match texts.last_mut() {
        Some(pair) => fill(pair, name, text),
        None => Ok(()),
    }
}

fn push_texts(alloc: Global, texts: &mut Vec<(String, Vec<u8>)>) -> Result<(), AllocError> {
    push_text(alloc, texts, "greeting", TEXT.as_bytes())?;
    push_text(alloc, texts, "empty", b"")?;
    push_text(alloc, texts, "greeting", b"another text of that name")
}

fn shelf(alloc: Global, most: usize, failing: u64) -> Result<MemShelf, AllocError>
    requires { 1 ≤ most }
{
    let mut texts = Vec::new(alloc);
    push_texts(alloc, &mut texts)?;
    match vec![in alloc; failing] {
        Ok(fails) => Ok(MemShelf::new(texts, most, fails)),
        Err(_) => Err(AllocError),
    }
}

/// Whether the fault is printed so.
fn is_printed(alloc: Global, fault: &ReadFault, expected: &str) -> Result<bool, AllocError> {
    let text = format!(in alloc; "{fault}")?;
    Ok(text.as_str() == expected)
}

/// Whether the text, or the fault as it is printed, is the expected one.
fn is_read(
    alloc: Global,
    shelf: &mut impl Shelf,
    name: &str,
    limit: u64,
    expected: &str,
) -> Result<bool, AllocError> {
    match read_all(alloc, shelf, name, limit) {
        Ok(text) => Ok(text.as_slice() == expected.as_bytes()),
        Err(fault) => is_printed(alloc, &fault, expected),
    }
}

const UNREAD: &str = "the text could not be read";

/// A name, a limit, the most bytes of a piece, the call that fails, and the text or fault.
type Read = (&'static str, u64, usize, u64, &'static str);

/// No call has the number 0. The text has 12 bytes: in pieces of 7 its calls are the beginning, two that move 7 and 5 bytes, and the one that moves none.
const READS: [Read; 14] = [
    ("greeting", 12, 1, 0, TEXT),
    ("greeting", 12, 7, 0, TEXT),
    ("greeting", 12, 5000, 0, TEXT),
    ("greeting", u64::MAX, 7, 0, TEXT),
    ("greeting", 11, 1, 0, "the text has more than 11 bytes"),
    ("greeting", 11, 7, 0, "the text has more than 11 bytes"),
    ("greeting", 0, 5000, 0, "the text has more than 0 bytes"),
    ("empty", 0, 7, 0, ""),
    ("missing", 12, 7, 0, UNREAD),
    ("greeting", 12, 7, 1, UNREAD),
    ("greeting", 12, 7, 2, UNREAD),
    ("greeting", 12, 7, 3, UNREAD),
    ("greeting", 12, 7, 4, UNREAD),
    ("greeting", 12, 7, 5, TEXT),
];

/// Whether a row is read as it says.
fn is_read_so(alloc: Global, row: &Read) -> Result<bool, AllocError> {
    let (name, limit, most, failing, expected) = *row;
    let mut shelf = shelf(alloc, most.max(1), failing)?;
    is_read(alloc, &mut shelf, name, limit, expected)
}

/// The place of the first row that is read otherwise.
fn first_wrong_read(alloc: Global) -> Result<Option<usize>, AllocError> {
    for (place, row) in READS.iter().enumerate() {
        if !is_read_so(alloc, row)? {
            return Ok(Some(place));
        }
    }
    Ok(None)
}

#[test]
fn reads_or_says_why_not(rt: HostRuntime) {
    assert_eq!(rt; first_wrong_read(rt.alloc()), Ok(None));
}

/// A text of 10,000 bytes, by its name. A call asks for 4096 bytes at most, so it comes in three pieces.
fn long_shelf(alloc: Global, text: &[u8]) -> Result<MemShelf, AllocError> {
    let mut texts = Vec::new(alloc);
    push_text(alloc, &mut texts, "long", text)?;
    Ok(MemShelf::new(texts, 5000, Vec::new(alloc)))
}

/// How many bytes of that text are read, and whether they are those.
fn long_read(alloc: Global, shelf: &mut MemShelf, limit: u64) -> Option<(usize, bool)> {
    match read_all(alloc, shelf, "long", limit) {
        Ok(text) => Some((text.len(), text.iter().all(|byte| *byte == b'x'))),
        Err(_) => None,
    }
}

fn long_reads(alloc: Global) -> Result<[Option<(usize, bool)>; 2], AllocError> {
    let mut shelf = long_shelf(alloc, &[b'x'; 10_000])?;
    let whole = long_read(alloc, &mut shelf, 10_000);
    Ok([whole, long_read(alloc, &mut shelf, 9_999)])
}

#[test]
fn reads_a_text_of_many_pieces(rt: HostRuntime) {
    assert_eq!(rt; long_reads(rt.alloc()), Ok([Some((10_000, true)), None]));
}

/// A text, the most bytes of a piece, the call that fails, what is taken, and whether all is written.
type Write = (&'static str, usize, u64, &'static str, bool);

/// No call has the number 0.
const WRITES: [Write; 7] = [
    (TEXT, 1, 0, TEXT, true),
    (TEXT, 7, 0, TEXT, true),
    (TEXT, 5000, 0, TEXT, true),
    (TEXT, 7, 1, "", false),
    (TEXT, 7, 2, "hello, ", false),
    (TEXT, 7, 3, TEXT, true),
    ("", 7, 1, "", true),
];

/// Whether a row is written as it says.
fn is_written_so(alloc: Global, row: &Write) -> Result<bool, AllocError> {
    let (text, most, failing, taken, written) = *row;
    let fails = vec![in alloc; failing]?;
    let mut sink = MemSink::new(alloc, most.max(1), fails);
    let is_written = write_all(&mut sink, text.as_bytes()).is_ok();
    Ok(is_written == written && sink.taken() == taken.as_bytes())
}

/// The place of the first row that is written otherwise.
fn first_wrong_write(alloc: Global) -> Result<Option<usize>, AllocError> {
    for (place, row) in WRITES.iter().enumerate() {
        if !is_written_so(alloc, row)? {
            return Ok(Some(place));
        }
    }
    Ok(None)
}

#[test]
fn writes_until_a_call_fails(rt: HostRuntime) {
    assert_eq!(rt; first_wrong_write(rt.alloc()), Ok(None));
}

/// The path of a file of this process alone.
fn own_path(rt: &HostRuntime) -> Result<PathBuf, Fail> {
    let number = process::id(rt.process());
    let name = format!(in rt.alloc(); "outer_io_reads_a_file_{number}")?;
    Ok(env::temp_dir(rt)?.join(rt.alloc(), name.as_str())?)
}

/// Whether nothing is read before any text was begun, the file is read, and it is not once it is removed.
fn file_reads(rt: &HostRuntime, path: &str) -> Result<[bool; 3], Fail> {
    fs::write(rt, path, TEXT)?;
    let mut shelf = FileShelf::new(rt);
    let nothing = shelf.read(&mut [0; 4]) == Ok(0);
    let whole = is_read(rt.alloc(), &mut shelf, path, 12, TEXT)?;
    fs::remove_file(rt, path)?;
    Ok([
        nothing,
        whole,
        is_read(rt.alloc(), &mut shelf, path, 12, UNREAD)?,
    ])
}

#[test]
fn reads_a_file(rt: HostRuntime) -> Result<(), Fail> {
    let path = own_path(&rt)?;
    assert_eq!(rt; file_reads(&rt, path.as_str())?, [true; 3]);
    Ok(())
}

#[test]
fn writes_to_the_standard_output(rt: HostRuntime) -> Result<(), Fail> {
    let mut sink = StdSink::new(&rt);
    write_all(&mut sink, b"a line of standard output\n")?;
    Ok(())
}
