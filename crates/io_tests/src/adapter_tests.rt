//! What no clause can say of the adapters: which calls of the real object they make, and what they take for a
//! failure.
use gk_io::{
    Clock, Failed, Fetched, FileShelf, Shelf, ShelfFault, Sink, Source, StdSink, StdSource,
    SystemClock,
};
use std::alloc::Global;
use std::fs::Files;
use std::io::{self, Cursor, Error, ErrorKind, Read, Write};
use std::time;

// Takes one byte a call, and counts bytes and flushes.
#[derive(Drop)]
struct OneByOne {
    bytes: u64,
    flushes: u64,
}

impl Write for OneByOne {
    fn write(&mut self, buf: &[u8]) -> io::Result<usize> {
        let count = buf.len().min(1);
        self.bytes = self.bytes.saturating_add(count as u64);
        Ok(count)
    }

    fn flush(&mut self) -> io::Result<()> {
        self.flushes = self.flushes.saturating_add(1);
        Ok(())
    }
}

fn slow_writer_gets_all() -> bool {
    let mut writer = OneByOne {
        bytes: 0,
        flushes: 0,
    };
    let mut sink = StdSink::new(&mut writer);
    let is_fine = sink.put(b"abc") == Ok(()) && sink.flush() == Ok(());
    drop(sink);
    is_fine && writer.bytes == 3 && writer.flushes == 1
}

#[test]
fn a_slow_writer_gets_all_bytes_and_is_flushed_once(rt: HostRuntime) {
    assert!(rt; slow_writer_gets_all());
}

// Fails at the calls before the one of this number, by errors of this kind.
#[derive(Drop)]
struct Failing {
    left: u32,
    kind: ErrorKind,
}

impl Failing {
    fn fails(&mut self) -> io::Result<()> {
        if self.left == 0 {
            return Ok(());
        }
        self.left -= 1;
        Err(Error::from(self.kind))
    }
}

impl Write for Failing {
    fn write(&mut self, buf: &[u8]) -> io::Result<usize> {
        self.fails()?;
        Ok(buf.len())
    }

    fn flush(&mut self) -> io::Result<()> {
        self.fails()
    }
}

impl Read for Failing {
    fn read(&mut self, buf: &mut [u8]) -> io::Result<usize> {
        self.fails()?;
        Ok(buf.len())
    }
}

fn fails_once(kind: ErrorKind) -> Failing {
    Failing { left: 1, kind }
}

fn interruption_is_no_failure() -> bool {
    let mut buf = [0; 2];
    StdSource::new(fails_once(ErrorKind::Interrupted)).read(&mut buf) == Ok(2)
        && StdSink::new(fails_once(ErrorKind::Interrupted)).put(b"ab") == Ok(())
        && StdSink::new(fails_once(ErrorKind::Interrupted)).flush() == Ok(())
}

#[test]
fn a_call_that_a_signal_interrupts_is_tried_again(rt: HostRuntime) {
    assert!(rt; interruption_is_no_failure());
}

fn read_fails_once() -> bool {
    let mut buf = [0; 2];
    let mut source = StdSource::new(fails_once(ErrorKind::BrokenPipe));
    source.read(&mut buf) == Err(Failed) && source.read(&mut buf) == Ok(2)
}

fn put_fails_once() -> bool {
    let mut sink = StdSink::new(fails_once(ErrorKind::BrokenPipe));
    sink.put(b"ab") == Err(Failed) && sink.put(b"ab") == Ok(())
}

fn flush_fails_once() -> bool {
    let mut sink = StdSink::new(fails_once(ErrorKind::BrokenPipe));
    sink.flush() == Err(Failed) && sink.flush() == Ok(())
}

#[test]
fn an_error_is_a_failure_and_the_next_call_is_made(rt: HostRuntime) {
    assert!(rt; read_fails_once() && put_fails_once() && flush_fails_once());
}

fn reader_gives_its_bytes() -> bool {
    let mut source = StdSource::new(Cursor::new(b"abc".as_slice()));
    let mut buf = [0; 2];
    let first = source.read(&mut buf) == Ok(2) && buf == [97, 98];
    first && source.read(&mut buf) == Ok(1) && source.read(&mut buf) == Ok(0)
}

#[test]
fn a_reader_gives_its_bytes_to_its_end(rt: HostRuntime) {
    assert!(rt; reader_gives_its_bytes());
}

// Names that a system has, how many bytes are allowed, what fetching comes to, and the bytes that are then
// handed over: an empty file, the system's own name with its LF, one byte too long and just within the limit, a
// file without an end, none, none under a file, a folder, and a name that no file can have.
const NAMED: [(&str, usize, Result<Fetched, ShelfFault>, &[u8]); 8] = [
    ("/dev/null", 0, Ok(Fetched::Found), b""),
    ("/proc/sys/kernel/ostype", 6, Ok(Fetched::Found), b"Linux\n"),
    ("/proc/sys/kernel/ostype", 5, Ok(Fetched::TooLong), b""),
    ("/dev/zero", 3, Ok(Fetched::TooLong), b""),
    ("/dev/no such file", 3, Ok(Fetched::Missing), b""),
    ("/dev/null/under a file", 3, Ok(Fetched::Missing), b""),
    ("/dev", 3, Err(ShelfFault::Failed), b""),
    ("/dev/null\0", 3, Err(ShelfFault::Failed), b""),
];

fn is_fetched<S: Shelf>(
    alloc: Global,
    shelf: &mut S,
    name: &str,
    limit: usize,
    wanted: Result<Fetched, ShelfFault>,
    bytes: &[u8],
) -> bool {
    let mut into = Vec::new(alloc);
    let fetched = shelf.fetch(alloc, name, limit, &mut into);
    fetched == wanted && (fetched != Ok(Fetched::Found) || into.as_slice() == bytes)
}

fn all_are_fetched<S: Shelf>(alloc: Global, shelf: &mut S) -> bool {
    for (name, limit, wanted, bytes) in NAMED {
        if !is_fetched(alloc, shelf, name, limit, wanted, bytes) {
            return false;
        }
    }
    true
}

fn files_are_fetched<R: Files>(files: &R, alloc: Global) -> bool {
    all_are_fetched(alloc, &mut FileShelf::new(files))
}

#[test]
fn files_of_the_system_are_found_missing_too_long_or_failed(rt: HostRuntime) {
    assert!(rt; files_are_fetched(&rt, rt.alloc()));
}

// The seconds up to the beginnings of 2020 and of 2120; milliseconds would be past both.
const IN_2020: u64 = 1_577_836_800;

const IN_2120: u64 = 4_733_510_400;

fn tells_the_time<R: time::Clock>(runtime: &R) -> bool {
    match SystemClock::new(runtime).now() {
        Ok(now) => IN_2020 < now && now < IN_2120,
        Err(Failed) => false,
    }
}

#[test]
fn the_system_clock_tells_seconds(rt: HostRuntime) {
    assert!(rt; tells_the_time(&rt));
}
