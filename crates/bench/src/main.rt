//! Measures a part of the desk; the first word says which.
#![tactic(auto)]

mod blobs;
mod facts;
mod lock;
mod mutex;
mod oids;
mod opcodes;
mod pages;
mod plan;
mod requirements;
mod signed;
mod super_blobs;
mod texts;
mod transactions;
mod turns;

use std::{env, io};

/// The words are `blobs`, `facts`, `opcodes`, `pages`, `texts`, `transactions` or `turns`, and what these take; or `each`,
/// and the files that `opcodes` and `texts` read.
fn main(rt: HostRuntime) -> io::Result<()> {
    let part = env::args(&rt)?.nth(1);
    match part.as_ref().map(|word| word.as_str()) {
        Some("blobs") => blobs::measure(&rt),
        Some("facts") => facts::measure(&rt),
        Some("opcodes") => opcodes::measure(&rt),
        Some("pages") => pages::measure(&rt),
        Some("texts") => texts::measure(&rt),
        Some("transactions") => transactions::measure(&rt),
        Some("turns") => turns::measure(&rt, rt.alloc()),
        Some("each") => {
            blobs::measure(&rt)?;
            opcodes::measure(&rt)?;
            pages::measure(&rt)?;
            texts::measure(&rt)?;
            turns::measure(&rt, rt.alloc())
        }
        _ => println!(rt;
            "usage: bench blobs|facts|opcodes|pages|texts|transactions|turns|each [TIMES] [time] [FILE ..]"
        ),
    }
}
