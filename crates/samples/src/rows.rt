// Lists of one kind, under a heading.
ghost use Rattle.std.specs.Prelude.{◌≤◌};

use crate::lists;
use codec::pools::Pools;
use eit::Caller;
use samples_report::{exchanged, lines, show};
use std::io;

// So many events, `apart` seconds from a start to the next, each with the whole day pool as its chain, under a heading.
pub fn show_row(
    rt: &impl Print,
    caller: Caller,
    heading: &[u8],
    start: u32,
    apart: u32,
    n: usize,
    day: &[u8],
) -> io::Result<()>
    requires { n ≤ 340 }
{
    lines::print_heading(rt, heading)?;
    let mut script = [0u8; lists::ROW_SIZE];
    let size = lists::write_row(&mut script, start, apart, n, day.len());
    show::show_script(rt, caller, &script[..size], &Pools::new(day, b""))
}

// The same events, made for broadcast, through the calls of both callers.
pub fn show_exchanged(
    rt: &impl Print,
    heading: &[u8],
    start: u32,
    apart: u32,
    n: usize,
    day: &[u8],
) -> io::Result<()>
    requires { n ≤ 340 }
{
    lines::print_heading(rt, heading)?;
    let mut script = [0u8; lists::ROW_SIZE];
    let size = lists::write_row(&mut script, start, apart, n, day.len());
    exchanged::show_exchanged(rt, &script[..size], day)
}

// Two events for broadcast, a second apart, the first with the whole day pool as its chain and the second with the
// series pool, under a heading.
pub fn show_pair(
    rt: &impl Print,
    heading: &[u8],
    start: u32,
    day: &[u8],
    series: &[u8],
) -> io::Result<()> {
    lines::print_heading(rt, heading)?;
    let mut script = [0u8; 2 * lists::PUT_SIZE];
    lists::write_put(&mut script, 0, 1, start as usize, 0, day.len());
    lists::write_put(
        &mut script,
        lists::PUT_SIZE,
        2,
        start as usize + 1,
        2,
        series.len(),
    );
    show::show_script(rt, Caller::Broadcast, &script, &Pools::new(day, series))
}
