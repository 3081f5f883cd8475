//! A source read in pieces and handed on line by line.

ghost use Rattle.std.specs.Prelude.{◌≡◌, ◌≢◌, ◌+◌, ◌<◌, ◌≤◌, [], ◌∷◌, ◌++◌, Ok, IfOk, OnOk, OnErr, is_some, length};
ghost use Rattle.line_reader.specs.declared.limits.TheConstants.{SESSION_BYTES, SESSION_LINES};

use crate::find::find_lf;
use crate::held_line::HeldLine;
use crate::limits::{SESSION_BYTES, SESSION_LINES};
use crate::line_read::LineRead;
use gk_io::{Failed, Source};
use std::alloc::{AllocError, Global};

/// How many bytes are asked of the source at once: what a pipe holds.
const PIECE: usize = 65_536;

/// The bytes of a piece that are still to be handed on, the front of the line that is being read, and how
/// many lines and bytes were handed on. All its memory is taken when it is made.
#[derive(Drop)]
pub struct LineReader {
    piece: Vec<u8>,
    next: usize,
    end: usize,
    line: HeldLine,
    lines: usize,
    bytes: usize,
    ghost ordered: { next ≤ end },
    ghost filled: { end ≤ length piece.items },
    ghost room: { 0 < length piece.items },
    ghost lines_within: { lines ≤ SESSION_LINES },
    ghost bytes_within: { bytes ≤ SESSION_BYTES },
}

impl LineReader {
    ghost use Rattle.line_reader.specs.Reading.{pending, held, lines_handed, bytes_handed, stream, IsRead};
    ghost use Rattle.line_reader.specs.Steps.{HandsOnNothing, IsFilled, IsLast, IsReady, IsRun};
    ghost use Rattle.gk_io.specs.Faults.{Rose};

    pub fn new(alloc: Global) -> Result<LineReader, AllocError>
        ensures pending { IfOk result (λ r. pending r ≡ []) }
        ensures lines { IfOk result (λ r. lines_handed r ≡ 0) }
        ensures bytes { IfOk result (λ r. bytes_handed r ≡ 0) }
    {
        Ok(LineReader {
            piece: vec![in alloc; 0; PIECE]?,
            next: 0,
            end: 0,
            line: HeldLine::new(),
            lines: 0,
            bytes: 0,
        })
    }

    /// The line that was read last, or its first `LINE_HELD` bytes, without its LF.
    pub fn line(&self) -> &[u8]
        ensures { result.now ≡ held self.now }
    {
        self.line.as_slice()
    }

    /// Reads up to the next LF. The limits are looked at only when one more byte came.
    pub fn next_line<S: Source>(&mut self, source: &mut S) -> Result<LineRead, Failed>
        ensures read { IsRead (stream self.old (S.left source.old)) (stream self.new (S.left source.new))
            (held self.new) (pending self.new) result }
        ensures lines { lines_handed self.new ≤ SESSION_LINES }
        ensures bytes { bytes_handed self.new ≤ SESSION_BYTES }
        ensures telling { is_some (S.left source.new) ≡ is_some (S.left source.old) }
        ensures later { S.faults source.old ≤ S.faults source.new }
        ensures cause { OnErr result (Rose (S.faults source.old) (S.faults source.new)) }
        ensures steady { OnOk result (S.faults source.new ≡ S.faults source.old) }
    {
        self.line.clear();
        loop {
            if !self.ready(source)? {
                return Ok(self.last());
            }
            if self.lines == SESSION_LINES || self.bytes == SESSION_BYTES {
                return Ok(LineRead::TooLong);
            }
            if self.take_run() {
                return Ok(LineRead::Line);
            }
        }
    }

    // Whether a byte is pending, after a piece was asked of the source where none was.
    fn ready<S: Source>(&mut self, source: &mut S) -> Result<bool, Failed>
        ensures bytes { IsReady (stream self.old (S.left source.old)).unread
            (stream self.new (S.left source.new)).unread (pending self.new) result }
        ensures same { HandsOnNothing self.old self.new }
        ensures telling { is_some (S.left source.new) ≡ is_some (S.left source.old) }
        ensures later { S.faults source.old ≤ S.faults source.new }
        ensures cause { OnErr result (Rose (S.faults source.old) (S.faults source.new)) }
        ensures steady { OnOk result (S.faults source.new ≡ S.faults source.old) }
    {
        if self.next < self.end {
            return Ok(true);
        }
        self.refill(source)?;
        Ok(self.next < self.end)
    }

    // Asks the source for a piece.
    fn refill<S: Source>(&mut self, source: &mut S) -> Result<(), Failed>
        requires { self.old.next ≡ self.old.end }
        ensures bytes { IsFilled (S.left source.old) (S.left source.new) (pending self.new) result }
        ensures same { HandsOnNothing self.old self.new }
        ensures telling { is_some (S.left source.new) ≡ is_some (S.left source.old) }
        ensures later { S.faults source.old ≤ S.faults source.new }
        ensures cause { OnErr result (Rose (S.faults source.old) (S.faults source.new)) }
        ensures steady { OnOk result (S.faults source.new ≡ S.faults source.old) }
    {
        self.next = 0;
        self.end = 0;
        self.end = source.read(self.piece.as_mut_slice())?;
        Ok(())
    }

    // Hands on the pending bytes up to the first LF or the limit, and says whether they ended with LF.
    fn take_run(&mut self) -> bool
        requires some { 0 < length (pending self.old) }
        requires lines { lines_handed self.old < SESSION_LINES }
        requires bytes { bytes_handed self.old < SESSION_BYTES }
        ensures { IsRun self.old self.new result }
    {
        let room = SESSION_BYTES - self.bytes;
        let end = self.end.min(self.next + room);
        let window = &self.piece.as_slice()[self.next..end];
        match find_lf(window) {
            Some(place) => {
                self.line.hold(&window[..place]);
                self.next += place + 1;
                self.bytes += place + 1;
                self.lines += 1;
                true
            }
            None => {
                self.line.hold(window);
                self.bytes += end - self.next;
                self.next = end;
                false
            }
        }
    }

    // What the end of the source leaves: a last line, or nothing.
    fn last(&self) -> LineRead
        ensures { IsLast (held self.now) result }
    {
        if self.line.is_empty() {
            LineRead::End
        } else {
            LineRead::Last
        }
    }
}
