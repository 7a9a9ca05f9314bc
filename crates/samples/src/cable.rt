// The samples of document 02, W-206: for the cable caller a section has at most 1,024 bytes, and a list or a file at
// most 256 events. No two events overlap.
use crate::{lists, rows};
use eit::Caller;
use std::io;

// Events with long chains.
pub fn chains(rt: &impl Print) -> io::Result<()> {
    let mut longest = [0u8; 994];
    lists::fill_pool(&mut longest);
    rows::show_row(
        rt,
        Caller::Cable,
        b"cable, chain of 994: one section of 1,024 bytes",
        0,
        60,
        1,
        &longest,
    )?;
    let mut above = [0u8; 995];
    lists::fill_pool(&mut above);
    rows::show_row(
        rt,
        Caller::Cable,
        b"cable, chain of 995: refusal 10",
        0,
        60,
        1,
        &above,
    )
}

// Many events without descriptors, in one segment.
pub fn many(rt: &impl Print) -> io::Result<()> {
    rows::show_row(
        rt,
        Caller::Cable,
        b"cable, 83 events without descriptors in a segment: one section",
        0,
        60,
        83,
        b"",
    )?;
    rows::show_row(
        rt,
        Caller::Cable,
        b"cable, 84 events without descriptors in a segment: two, of 83 and 1",
        0,
        60,
        84,
        b"",
    )
}

// As many events as the limit and one more, 60 in a segment.
pub fn most(rt: &impl Print) -> io::Result<()> {
    rows::show_row(
        rt,
        Caller::Cable,
        b"cable, 256 events: accepted",
        0,
        180,
        256,
        b"",
    )?;
    rows::show_row(
        rt,
        Caller::Cable,
        b"cable, PUT of event 257: refusal 8 at its offset",
        0,
        180,
        257,
        b"",
    )
}

// What broadcast has and cable refuses.
pub fn exchanged(rt: &impl Print) -> io::Result<()> {
    rows::show_exchanged(
        rt,
        b"257 events of broadcast: for cable Build 12, Plan 254 in every entry, Read 26 at the section of event 257",
        0,
        180,
        257,
        b"",
    )?;
    let mut day = [0u8; 995];
    lists::fill_pool(&mut day);
    rows::show_exchanged(
        rt,
        b"broadcast's section of 1,025 bytes: for cable 20 at 18, with a wrong CRC_32 too; then for broadcast 21 at 18",
        10_800,
        60,
        1,
        &day,
    )
}
