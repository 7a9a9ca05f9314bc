// Program samples: the test program of document 01 ("Samples with the cuts marked"), with the samples of document 02,
// W-206. It carries the samples out by the calls of the library, and prints what they say and how the files are cut.
#![tactic(auto)]

use std::io;

mod cable;
mod lists;
mod others;
mod paper;
mod rows;

// All samples, one after the other. A line that cannot be written ends them.
fn show_all(rt: &impl Print) -> io::Result<()> {
    rt.println("The samples of document 01, and others, by the library's calls")?;
    paper::times(rt)?;
    paper::segments(rt)?;
    paper::no_events(rt)?;
    paper::chains(rt)?;
    paper::pairs(rt)?;
    paper::many(rt)?;
    paper::undo(rt)?;
    paper::program(rt)?;
    others::rule_four(rt)?;
    others::rule_eight(rt)?;
    others::crc(rt)?;
    others::days(rt)?;
    cable::chains(rt)?;
    cable::many(rt)?;
    cable::most(rt)?;
    cable::exchanged(rt)?;
    rt.println("\nend")
}

fn main(rt: HostRuntime) {
    if show_all(&rt).is_err() {
        let _ = rt.eprintln("samples: standard output cannot be written");
    }
}
