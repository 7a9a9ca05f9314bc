// A section's numbers, and how they follow those of the section before it (01, "The file of sections"): S is
// section_number, G is segment_last_section_number, L is last_section_number.
ghost use Rattle.std.specs.Prelude.{◌≡◌};
ghost use Rattle.codec_section.specs.HeaderRead.{held_header};
ghost use Rattle.std.proofs.Math.Option.{some};
ghost use Rattle.sections.specs.HeaderTests.{is_numbered, is_at, is_next, has_right_numbering};
ghost use Rattle.read_checks.specs.HeaderBefore.{header_before};

use codec_section::header::SectionHeader;
use codec_section::segment::first_of;
use eit::limits::{SEGMENT_SECTIONS_MAX, TABLE_FIRST};

// s0 ≤ S ≤ G ≤ L, G ≤ s0 + 7, and G = L or L ≥ s0 + 8.
fn is_numbered(header: SectionHeader) -> bool
    ensures { result ≡ is_numbered (held_header header) }
{
    let first = first_of(header.section_number);
    let last = header.last_section_number as usize;
    let segment_last = header.segment_last_section_number as usize;
    header.section_number as usize <= segment_last
        && segment_last <= last
        && segment_last <= first + (SEGMENT_SECTIONS_MAX - 1)
        && (segment_last == last || first + SEGMENT_SECTIONS_MAX <= last)
}

// The section with this table, section_number and last_section_number.
fn is_at(table: usize, number: usize, last: u8, header: SectionHeader) -> bool
    ensures { result ≡ is_at table number last (held_header header) }
{
    header.table_id as usize == table
        && header.section_number as usize == number
        && header.last_section_number == last
}

// Right behind the section before: the next of its segment, the first of the next segment, or the first of the next
// table.
fn is_behind(last: SectionHeader, header: SectionHeader) -> bool
    ensures { result ≡ is_next (some (held_header last)) (held_header header) }
{
    let table = last.table_id as usize;
    if last.section_number < last.segment_last_section_number {
        return is_at(
            table,
            last.section_number as usize + 1,
            last.last_section_number,
            header,
        ) && header.segment_last_section_number == last.segment_last_section_number;
    }
    if last.section_number < last.last_section_number {
        return is_at(
            table,
            first_of(last.section_number) + SEGMENT_SECTIONS_MAX,
            last.last_section_number,
            header,
        );
    }
    header.table_id as usize == table + 1 && header.section_number == 0
}

// The numbers behind the section before; the first section is section 0 of the first table.
fn is_next(before: Option<SectionHeader>, header: SectionHeader) -> bool
    ensures { result ≡ is_next (header_before before) (held_header header) }
{
    match before {
        None => header.table_id as usize == TABLE_FIRST && header.section_number == 0,
        Some(last) => is_behind(last, header),
    }
}

// 23: the section's numbers, how they follow those before, and no table past last_table_id.
#[tactic(auto, unfolding(sections::specs::HeaderTests::has_right_numbering))]
pub fn has_right_numbering(before: Option<SectionHeader>, header: SectionHeader) -> bool
    ensures { result ≡ has_right_numbering (header_before before) (held_header header) }
{
    is_numbered(header) && is_next(before, header) && header.table_id <= header.last_table_id
}
