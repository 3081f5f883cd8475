//! Reads rows, each `text` or `set`, a space and a text, and prints where the text stops being a requirement or a set
//! of them, or `read`. The rows and the lines that are wanted were made by a recogniser of the grammar apart from the
//! program (`scripts/make-syntax-rows`).
#![tactic(auto)]

mod row;

use gk_io::StdSink;
use line_session::write_line;
use std::io;

fn main(rt: HostRuntime) -> io::Result<()> {
    let mut output = StdSink::new(io::writer(&rt));
    for line in rt.lines(rt.alloc()) {
        let line = line?;
        let mut told = row::told(rt.alloc(), line.as_str().as_bytes());
        if write_line(&mut output, &mut told).is_err() {
            return Ok(());
        }
    }
    Ok(())
}
