//! The devices in memory, each call once and each failure that is named; and lines of a source.
use crate::devices::{calls, sink_of, source_of};
use gk_io::{
    CallNumbers, Clock, Failed, Fetched, MemoryClock, MemoryFile, MemoryShelf, MemorySink,
    MemorySource, Shelf, ShelfFault, Sink, Source, read_whole,
};
use line_reader::{LineRead, LineReader};
use std::alloc::{AllocError, Global};

// How many bytes a read returns, and what then stands in a buffer that held `xyz`.
fn reads(source: &mut MemorySource, count: Result<usize, Failed>, behind: &[u8]) -> bool {
    let mut buf = *b"xyz";
    source.read(&mut buf) == count && buf.as_slice() == behind
}

fn source_gives_its_bytes(alloc: Global) -> Result<bool, AllocError> {
    let mut source = source_of(alloc, b"abcde", 2)?;
    Ok(
        reads(&mut source, Ok(3), b"abc")
            && reads(&mut source, Err(Failed), b"xyz")
            && source.faults() == 1
            && reads(&mut source, Ok(2), b"dez")
            && reads(&mut source, Ok(0), b"xyz"),
    )
}

#[test]
fn a_memory_source_gives_its_bytes_but_at_the_named_calls(rt: HostRuntime) {
    assert!(rt; source_gives_its_bytes(rt.alloc()) == Ok(true));
}

fn puts(sink: &mut MemorySink, bytes: &[u8], wanted: Result<(), Failed>) -> bool {
    sink.put(bytes) == wanted
}

fn flushes(sink: &mut MemorySink, wanted: Result<(), Failed>) -> bool {
    sink.flush() == wanted
}

fn calls_fail_in_turn(sink: &mut MemorySink) -> bool {
    puts(sink, b"ab", Ok(()))
        && puts(sink, b"c", Err(Failed))
        && flushes(sink, Ok(()))
        && flushes(sink, Err(Failed))
        && puts(sink, b"cde", Err(Failed))
        && puts(sink, b"cd", Ok(()))
}

fn sink_keeps_what_finds_room(alloc: Global) -> Result<bool, AllocError> {
    let mut sink = sink_of(alloc, 4, 2, 4)?;
    Ok(
        calls_fail_in_turn(&mut sink)
            && sink.written() == b"abcd".as_slice()
            && sink.flushed() == b"ab".as_slice()
            && sink.faults() == 3,
    )
}

#[test]
fn a_memory_sink_keeps_what_finds_room_but_at_the_named_calls(rt: HostRuntime) {
    assert!(rt; sink_keeps_what_finds_room(rt.alloc()) == Ok(true));
}

fn file_of(alloc: Global, name: &str, bytes: &[u8]) -> Result<MemoryFile, AllocError> {
    Ok(MemoryFile {
        name: String::from_str(alloc, name)?,
        bytes: Vec::from_slice(alloc, bytes)?,
    })
}

// What fetching comes to, and what is handed over where the file is found.
fn fetches(
    alloc: Global,
    shelf: &mut MemoryShelf,
    name: &str,
    wanted: Result<Fetched, ShelfFault>,
    bytes: &[u8],
) -> bool {
    let mut into = Vec::new(alloc);
    let fetched = shelf.fetch(alloc, name, 3, &mut into);
    fetched == wanted && (fetched != Ok(Fetched::Found) || into.as_slice() == bytes)
}

// A shelf of one file, named `a`.
fn shelf_of(alloc: Global, bytes: &[u8], call: u64) -> Result<MemoryShelf, AllocError> {
    let failing = calls(alloc, call, call)?;
    let mut files = Vec::new(alloc);
    files.push(file_of(alloc, "a", bytes)?)?;
    Ok(MemoryShelf::new(files, failing))
}

// A file of as many bytes as the limit allows, and one that is missing; the second call fails.
fn shelf_hands_its_file_over(alloc: Global) -> Result<bool, AllocError> {
    let mut shelf = shelf_of(alloc, b"123", 2)?;
    Ok(
        fetches(alloc, &mut shelf, "a", Ok(Fetched::Found), b"123")
            && fetches(alloc, &mut shelf, "a", Err(ShelfFault::Failed), b"")
            && shelf.faults() == 1
            && fetches(alloc, &mut shelf, "b", Ok(Fetched::Missing), b""),
    )
}

#[test]
fn a_memory_shelf_hands_its_file_over_but_at_the_named_calls(rt: HostRuntime) {
    assert!(rt; shelf_hands_its_file_over(rt.alloc()) == Ok(true));
}

fn shelf_refuses_a_longer_file(alloc: Global) -> Result<bool, AllocError> {
    let mut shelf = shelf_of(alloc, b"1234", 0)?;
    Ok(fetches(alloc, &mut shelf, "a", Ok(Fetched::TooLong), b""))
}

#[test]
fn a_memory_shelf_refuses_a_longer_file(rt: HostRuntime) {
    assert!(rt; shelf_refuses_a_longer_file(rt.alloc()) == Ok(true));
}

fn tells(clock: &mut MemoryClock, moment: Result<u64, Failed>) -> bool {
    clock.now() == moment
}

fn clock_tells_its_moments(alloc: Global) -> Result<bool, AllocError> {
    let failing = calls(alloc, 2, 2)?;
    let mut clock = MemoryClock::new(Vec::from_slice(alloc, &[5, 4])?, failing);
    Ok(
        tells(&mut clock, Ok(5))
            && tells(&mut clock, Err(Failed))
            && tells(&mut clock, Ok(4))
            && tells(&mut clock, Ok(4))
            && clock.faults() == 1,
    )
}

#[test]
fn a_memory_clock_tells_its_moments_and_the_last_for_ever(rt: HostRuntime) {
    assert!(rt; clock_tells_its_moments(rt.alloc()) == Ok(true));
}

// Bytes of which three are allowed, whether they are read whole, and what is left behind the fourth.
const WHOLE: [(&[u8], bool, &[u8]); 4] = [
    (b"", true, b"\0\0\0"),
    (b"123", true, b"\0\0\0"),
    (b"1234", false, b"\0\0\0"),
    (b"123456", false, b"56\0"),
];

fn is_read_whole(alloc: Global, source: &mut MemorySource, bytes: &[u8], whole: bool) -> bool {
    let mut into = Vec::new(alloc);
    let read = read_whole(source, 3, &mut into);
    read == Ok(whole) && (!whole || into.as_slice() == bytes)
}

fn leaves(source: &mut MemorySource, rest: &[u8]) -> bool {
    let mut buf = [0; 3];
    source.read(&mut buf).is_ok() && buf.as_slice() == rest
}

fn is_read(alloc: Global, bytes: &[u8], whole: bool, rest: &[u8]) -> Result<bool, AllocError> {
    let mut source = source_of(alloc, bytes, 0)?;
    Ok(is_read_whole(alloc, &mut source, bytes, whole) && leaves(&mut source, rest))
}

fn all_are_read(alloc: Global) -> bool {
    for (bytes, whole, rest) in WHOLE {
        if is_read(alloc, bytes, whole, rest) != Ok(true) {
            return false;
        }
    }
    true
}

#[test]
fn a_file_is_read_no_further_than_one_byte_past_its_limit(rt: HostRuntime) {
    assert!(rt; all_are_read(rt.alloc()));
}

// How many bytes a line has, and how many of them are held.
const HELD: [(usize, usize); 4] = [
    (8_191, 8_191),
    (8_192, 8_192),
    (8_193, 8_193),
    (8_194, 8_193),
];

// A line of so many bytes, and a last one of one byte.
fn two_lines(alloc: Global, length: usize) -> Result<MemorySource, AllocError> {
    let mut bytes = vec![in alloc; b'x'; length]?;
    bytes.extend_from_slice(b"\ny")?;
    Ok(MemorySource::new(bytes, CallNumbers::new(alloc)))
}

fn next_is(reader: &mut LineReader, source: &mut MemorySource, read: LineRead) -> bool {
    reader.next_line(source) == Ok(read)
}

fn holds_front(reader: &mut LineReader, source: &mut MemorySource, held: usize) -> bool {
    next_is(reader, source, LineRead::Line)
        && reader.line().len() == held
        && next_is(reader, source, LineRead::Last)
        && reader.line() == b"y".as_slice()
        && next_is(reader, source, LineRead::End)
}

fn front_is_held(alloc: Global, length: usize, held: usize) -> Result<bool, AllocError> {
    let mut source = two_lines(alloc, length)?;
    let mut reader = LineReader::new(alloc)?;
    Ok(holds_front(&mut reader, &mut source, held))
}

fn all_fronts_are_held(alloc: Global) -> bool {
    for (length, held) in HELD {
        if front_is_held(alloc, length, held) != Ok(true) {
            return false;
        }
    }
    true
}

#[test]
fn a_front_of_each_line_is_held(rt: HostRuntime) {
    assert!(rt; all_fronts_are_held(rt.alloc()));
}

// The second call tells of the end, and a third one would fail.
fn ended_source_is_left_alone(alloc: Global) -> Result<bool, AllocError> {
    let mut source = source_of(alloc, b"a", 3)?;
    let mut reader = LineReader::new(alloc)?;
    Ok(next_is(&mut reader, &mut source, LineRead::Last) && source.faults() == 0)
}

#[test]
fn a_source_at_its_end_is_not_asked_again(rt: HostRuntime) {
    assert!(rt; ended_source_is_left_alone(rt.alloc()) == Ok(true));
}
