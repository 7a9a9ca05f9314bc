// The lines on standard output.
use calendar::Date;
use codec::fields;
use eit::limits::TABLE_SEGMENTS;
use plan_listing::events;
use refusal::Refusal;
use std::io;

pub fn print(rt: &impl Print, text: &[u8]) -> io::Result<()> {
    rt.write_all(text)
}

// A number in decimal.
pub fn print_number(rt: &impl Print, n: usize) -> io::Result<()> {
    rt.print(n)
}

// A heading, behind an empty line.
pub fn print_heading(rt: &impl Print, heading: &[u8]) -> io::Result<()> {
    print(rt, b"\n")?;
    print(rt, heading)?;
    print(rt, b"\n")
}

// What a call says: its value, or the number of its refusal and the value.
pub fn print_answer(rt: &impl Print, call: &[u8], number: u32, value: usize) -> io::Result<()> {
    print(rt, call)?;
    if number != 0 {
        print!(rt; " refused {number}")?;
    }
    print(rt, b" ")?;
    print_number(rt, value)?;
    print(rt, b"\n")
}

// The same of an outcome.
pub fn print_outcome<E: Refusal>(
    rt: &impl Print,
    call: &[u8],
    outcome: Result<usize, E>,
) -> io::Result<()> {
    let number = refusal::number_of(outcome);
    print_answer(rt, call, number, refusal::value_of(outcome))
}

// Bytes in hexadecimal, each behind a space, and a newline.
pub fn print_bytes(rt: &impl Print, bytes: &[u8]) -> io::Result<()> {
    for byte in bytes {
        print!(rt; " {byte:02X}")?;
    }
    rt.println("")
}

// The line of a section: offset, table_id, section_number, segment_last_section_number, last_section_number, number of
// events.
fn print_cut(rt: &impl Print, offset: usize, section: &[u8]) -> io::Result<()> {
    let table_id = fields::read_field(section, 0, 1);
    let number = fields::read_field(section, 6, 1);
    let segment_last = fields::read_field(section, 12, 1);
    let last = fields::read_field(section, 7, 1);
    let events = events::count_events(section);
    println!(rt; "{offset} {table_id} {number} {segment_last} {last} {events}")
}

// The cuts of a file.
pub fn print_cuts(rt: &impl Print, file: &[u8]) -> io::Result<()> {
    rt.println("offset table section segment_last last events")?;
    for (offset, section) in read_walk::sections(file) {
        print_cut(rt, offset, section)?;
    }
    Ok(())
}

// Plan's line of a table, where it has sections: its counts up to the last that is not 0.
pub fn print_counts(
    rt: &impl Print,
    table_id: usize,
    counts: &[u8; TABLE_SEGMENTS],
) -> io::Result<()> {
    let Some(last) = counts.iter().rposition(|count| *count != 0) else {
        return Ok(());
    };
    print!(rt; "plan {table_id}")?;
    for count in &counts[..=last] {
        print!(rt; " {count}")?;
    }
    rt.println("")
}

// The date of a day.
pub fn print_date(rt: &impl Print, mjd: u32) -> io::Result<()> {
    match calendar::date_of(mjd) {
        Some(Date { year, month, day }) => println!(rt; "MJD {mjd} {year}-{month:02}-{day:02}"),
        None => println!(rt; "MJD {mjd} outside"),
    }
}
