//! Reads rows of a signature and its code in hexadecimal, and prints what each signature says of the code, or
//! the first refusal. The rows and the lines that are wanted were made by an implementation of the layout
//! apart from this one; the last ones hold a library that a linker signed.
#![tactic(auto)]

mod row;

use gk_io::StdSink;
use line_session::write_line;
use std::io;

fn main(rt: HostRuntime) -> io::Result<()> {
    let mut output = StdSink::new(io::writer(&rt));
    for line in rt.lines(rt.alloc()) {
        let line = line?;
        let mut told = row::told(rt.alloc(), line.as_str().as_bytes());
        if write_line(&mut output, &mut told).is_err() {
            return Ok(());
        }
    }
    Ok(())
}
