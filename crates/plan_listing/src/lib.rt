// The text of program plan (01, "Samples with the cuts marked"), written into a lent buffer as far as there is room.
#![tactic(auto)]

ghost use Rattle.plan_listing.specs.Fill.{Fills};
ghost use Rattle.plan_listing.specs.Listing.{section_line, listing, refused_text, too_long};
ghost use Rattle.plan_listing.specs.Writes.{Writes};

use codec::fields;
use text::Writer;

pub mod events;
mod text;

// The line of a section: table, section number and number of events.
fn write_line(to: &mut Writer<'_>, section: &[u8])
    ensures { Writes to.old (section_line section.now) to.new }
{
    to.number(fields::read_field(section, 0, 1) as usize, b' ');
    to.number(fields::read_field(section, 6, 1) as usize, b' ');
    to.number(events::count_events(section), b'\n');
}

// The listing of a file. Returns how many of its bytes had room.
pub fn write_listing(out: &mut [u8], file: &[u8]) -> usize
    ensures { Fills out.old 0 (listing file.now) out.new result }
{
    let mut to = Writer::new(out);
    to.text(b"table section events\n");
    for (_, section) in read_walk::sections(file) {
        write_line(&mut to, section);
    }
    to.text(b"bytes ");
    to.number(file.len(), b'\n');
    to.end
}

// The line of a refusal. Returns how many of its bytes had room.
pub fn write_refused(out: &mut [u8], number: u32) -> usize
    ensures { Fills out.old 0 (refused_text number) out.new result }
{
    let mut to = Writer::new(out);
    to.text(b"refused ");
    to.number(number as usize, b'\n');
    to.end
}

// The line for a script that is too long. Returns how many of its bytes had room.
pub fn write_too_long(out: &mut [u8]) -> usize
    ensures { Fills out.old 0 too_long out.new result }
{
    let mut to = Writer::new(out);
    to.text(b"too long\n");
    to.end
}
