// Samples from the papers that document 01 stands on.
use crate::{lists, rows};
use codec::fields;
use codec::pools::Pools;
use eit::Caller;
use samples_report::{lines, show};
use std::io;

// OP-58's rule 4: its segment 2 is the second, segment 1 here, and has two sections.
pub fn rule_four(rt: &impl Print) -> io::Result<()> {
    let mut day = [0u8; 2_027];
    lists::fill_pool(&mut day);
    let mut series = [0u8; 2_028];
    lists::fill_pool(&mut series);
    rows::show_pair(
        rt,
        b"OP-58, rule 4: the second segment has only 2 sections: 8 + 2 - 1 = 9 in those two",
        10_800,
        &day,
        &series,
    )
}

// OP-58's rule 8: the first and last seconds of segments 0 and 1, the last of four days, and the next.
pub fn rule_eight(rt: &impl Print) -> io::Result<()> {
    let mut script = [0u8; 108];
    lists::write_put(&mut script, 0, 1, 0, 0, 0);
    lists::write_put(&mut script, 18, 2, 10_799, 0, 0);
    lists::write_put(&mut script, 36, 3, 10_800, 0, 0);
    lists::write_put(&mut script, 54, 4, 21_599, 0, 0);
    lists::write_put(&mut script, 72, 5, 345_599, 0, 0);
    lists::write_put(&mut script, 90, 6, 345_600, 0, 0);
    lines::print_heading(
        rt,
        b"OP-58, rule 8: segment 0 from 00:00:00 to 02:59:59, segment 1 from 03:00:00 to 05:59:59; 0x50 has four days",
    )?;
    show::show_script(rt, Caller::Broadcast, &script, &Pools::new(b"", b""))
}

pub fn crc(rt: &impl Print) -> io::Result<()> {
    lines::print_heading(rt, b"CRC_32 of 123456789 is 0376E6E7")?;
    let mut bytes = [0u8; 4];
    fields::write_field(&mut bytes, 0, 4, codec_crc::crc32(b"123456789") as usize);
    rt.print("CRC_32")?;
    lines::print_bytes(rt, &bytes)
}

// The example of EN 300 468, annex C; the limits of the annex, and a day before and after; the most that two bytes
// hold.
pub fn days(rt: &impl Print) -> io::Result<()> {
    lines::print_heading(rt, b"MJD 45,218 is 1982-09-06")?;
    lines::print_date(rt, 45_218)?;
    lines::print_date(rt, 15_078)?;
    lines::print_date(rt, 15_079)?;
    lines::print_date(rt, 65_535)?;
    lines::print_date(rt, 88_127)?;
    lines::print_date(rt, 88_128)
}
