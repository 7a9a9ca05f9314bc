// The samples of document 01, "Samples with the cuts marked", for broadcast.
ghost use Rattle.std.specs.Prelude.{◌≤◌};

use crate::{lists, rows};
use codec::pools::Pools;
use eit::Caller;
use samples_report::{lines, show};
use std::io;

// The seconds that bytes showed.
fn print_read(rt: &impl Print, read: Option<u32>) -> io::Result<()> {
    match read {
        Some(seconds) => println!(rt; "read {seconds}"),
        None => rt.println("read broken"),
    }
}

// A start, to bytes and back.
fn show_start(rt: &impl Print, base_day: u32, start: u32) -> io::Result<()> {
    let mut bytes = [0u8; 5];
    codec_time::write_start(&mut bytes, 0, base_day, start);
    print!(rt; "base day {base_day} start {start}")?;
    lines::print_bytes(rt, &bytes)?;
    print_read(rt, codec_time::read_start(&bytes, 0, base_day))
}

// A duration, to bytes and back.
fn show_duration(rt: &impl Print, duration: u32) -> io::Result<()> {
    let mut bytes = [0u8; 3];
    codec_time::write_duration(&mut bytes, 0, duration);
    print!(rt; "duration {duration}")?;
    lines::print_bytes(rt, &bytes)?;
    print_read(rt, codec_time::read_duration(&bytes, 0))
}

// By the day itself as base day, and by a base day two days before it.
pub fn times(rt: &impl Print) -> io::Result<()> {
    lines::print_heading(
        rt,
        b"1993-10-13 12:45:00 is C0 79 12 45 00; 01:45:30 is 01 45 30",
    )?;
    lines::print_date(rt, 49_273)?;
    show_start(rt, 49_273, 45_900)?;
    show_start(rt, 49_271, 218_700)?;
    show_duration(rt, 6_330)
}

// So many events a second apart.
fn show_row(rt: &impl Print, heading: &[u8], start: u32, n: usize, day: &[u8]) -> io::Result<()>
    requires { n ≤ 340 }
{
    rows::show_row(rt, Caller::Broadcast, heading, start, 1, n, day)
}

// One event without descriptors, at the ends of segments and tables.
pub fn segments(rt: &impl Print) -> io::Result<()> {
    show_row(rt, b"start 10,799: segment 0", 10_799, 1, b"")?;
    show_row(rt, b"10,800: section 8", 10_800, 1, b"")?;
    show_row(rt, b"345,599: 0x50, segment 31", 345_599, 1, b"")?;
    show_row(
        rt,
        b"345,600: 0x51, section 0; 0x50 has one empty section, last_section_number 0",
        345_600,
        1,
        b"",
    )?;
    show_row(rt, b"5,529,599: 0x5F, segment 31", 5_529_599, 1, b"")?;
    show_row(rt, b"5,529,600: refusal 5", 5_529_600, 1, b"")
}

pub fn no_events(rt: &impl Print) -> io::Result<()> {
    lines::print_heading(
        rt,
        b"no events, ids 1, 2, 3, version 0: 18 bytes, first 14 are 50 F0 0F 00 01 C1 00 00 00 02 00 03 00 50",
    )?;
    show::show_script(rt, Caller::Broadcast, b"", &Pools::new(b"", b""))?;
    show::show_bytes(rt, Caller::Broadcast, b"", 0, 18)
}

// Events with long chains.
pub fn chains(rt: &impl Print) -> io::Result<()> {
    let mut longest = [0u8; 4_066];
    lists::fill_pool(&mut longest);
    show_row(rt, b"chain of 4,066: one section", 0, 1, &longest)?;
    let mut above = [0u8; 4_067];
    lists::fill_pool(&mut above);
    show_row(rt, b"chain of 4,067: refusal 10", 0, 1, &above)?;
    show_row(
        rt,
        b"eight chains of 4,066 in a segment: eight sections",
        0,
        8,
        &longest,
    )?;
    show_row(rt, b"nine chains of 4,066 in a segment: 10", 0, 9, &longest)
}

pub fn pairs(rt: &impl Print) -> io::Result<()> {
    let mut day = [0u8; 2_027];
    lists::fill_pool(&mut day);
    rows::show_pair(
        rt,
        b"two events in a segment, chains 4,054 bytes together: one section",
        0,
        &day,
        &day,
    )?;
    let mut series = [0u8; 2_028];
    lists::fill_pool(&mut series);
    rows::show_pair(
        rt,
        b"two events in a segment, chains 4,055 bytes together: two",
        0,
        &day,
        &series,
    )
}

// Many events without descriptors.
pub fn many(rt: &impl Print) -> io::Result<()> {
    show_row(
        rt,
        b"339 events without descriptors in a segment: one section",
        0,
        339,
        b"",
    )?;
    show_row(
        rt,
        b"340 events without descriptors in a segment: two, of 339 and 1",
        0,
        340,
        b"",
    )
}

pub fn undo(rt: &impl Print) -> io::Result<()> {
    let mut script = [0u8; 23];
    lists::write_put(&mut script, 0, 1, 45_900, 0, 0);
    script[18] = 0x02;
    script[20] = 0x01;
    script[21] = 0x04;
    script[22] = 0x04;
    lines::print_heading(rt, b"PUT, WITHDRAW, UNDO, UNDO: empty list")?;
    show::show_script(rt, Caller::Broadcast, &script, &Pools::new(b"", b""))?;
    lines::print_heading(rt, b"UNDO alone: 4")?;
    show::show_script(rt, Caller::Broadcast, &[0x04], &Pools::new(b"", b""))
}

// The sample of program plan, and its event in the file.
pub fn program(rt: &impl Print) -> io::Result<()> {
    let script = [
        0x01u8, 0x00, 0x01, 0x00, 0x00, 0xB3, 0x4C, 0x00, 0x00, 0x18, 0xBA, 0x00, 0x00, 0x00, 0x00,
        0x00, 0x00, 0x00,
    ];
    lines::print_heading(
        rt,
        b"01 0001 0000B34C 000018BA 00 00000000 0000, the script of program plan",
    )?;
    show::show_script(rt, Caller::Broadcast, &script, &Pools::new(b"", b""))?;
    show::show_bytes(rt, Caller::Broadcast, &script, 86, 98)
}
