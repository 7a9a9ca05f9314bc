// The file written: its segments one behind the other (01, "The file of sections", "Build, Read").
ghost use Rattle.std.specs.Prelude.{◌≡◌, ◌+◌, ◌≤◌, ◌<◌, length};
ghost use Rattle.eit.specs.Overwrite.{overwrite};
ghost use Rattle.sections.specs.Section.{section_sizes};
ghost use Rattle.sections.specs.Encode.{file_bytes};
ghost use Rattle.codec_section.specs.HeaderRead.{held_header};
ghost use Rattle.schedule.specs.SectionsOf.{sections_of};
ghost use Rattle.build.specs.Sections.{first_header, sections_from};
ghost use Rattle.build.specs.Rows.{IsRow, row_last};
ghost use Rattle.build.specs.Held.{held, all_held};
ghost use Rattle.build.specs.Writing.{Writable};

use crate::section::Writer;
use build_counts::{count, cut, segment};
use codec_section::header::SectionHeader;
use codec_section::segment::{first_section, table_of};
use eit::limits::{SECTION_OVERHEAD, TABLE_SEGMENTS};
use eit::{Identity, Sizes};

impl<'a> Writer<'a> {
    // The sections of a segment, as many as `sections` says, with the events from `from` to `end`: each takes as many
    // of the next events as fit, and is numbered from the first header's section_number on. Returns the offset behind
    // them.
    fn write_segment(
        &self,
        out: &mut [u8],
        at: usize,
        first: SectionHeader,
        sections: u8,
        from: usize,
        end: usize,
        room: u16,
    ) -> usize
        requires { (at + section_sizes (sections_from room (held_header first) sections (held self.now from end))
            ≤ length out.old)
            × (first.section_number + sections ≤ 256) }
        ensures { (out.new
            ≡ overwrite out.old at
            (file_bytes self.now.base_day
            (sections_from room (held_header first) sections (held self.now from end))))
            × (result
            ≡ at + section_sizes (sections_from room (held_header first) sections (held self.now from end))) }
    {
        let mut offset = at;
        let mut next = from;
        for k in 0..sections {
            let header = SectionHeader {
                section_number: first.section_number + k,
                ..first
            };
            let taken = cut::next_cut(self.list, next, end, self.pools, room as usize);
            let size = SECTION_OVERHEAD + taken.bytes;
            self.write_section(out, offset, size, header, next, taken.to);
            offset += size;
            next = taken.to;
        }
        offset
    }
}

// last_section_number of the table with these section counts: that of the last section of its last segment that has
// sections.
fn last_section(counts: &[u8]) -> u8
    requires { IsRow counts.now }
    ensures { result ≡ row_last counts.now }
{
    for segment in (0..TABLE_SEGMENTS).rev() {
        let sections = counts[segment];
        if 0 < sections {
            // In every table a segment begins at the same section as in the first, where it is its own index.
            return first_section(segment) as u8 + (sections - 1);
        }
    }
    // A table has sections in its first segment.
    unreachable!()
}

// The header of the first of a segment's sections, as many as `sections` says.
fn first_header(
    index: usize,
    sections: u8,
    last: u8,
    last_table_id: u8,
    identity: Identity,
) -> SectionHeader
    requires { (index < 512) × (0 < sections) × (sections ≤ 8) }
    ensures { result ≡ first_header index sections last last_table_id identity }
{
    let number = first_section(index) as u8;
    SectionHeader {
        table_id: table_of(index) as u8,
        section_number: number,
        last_section_number: last,
        segment_last_section_number: number + (sections - 1),
        last_table_id,
        triplet: identity.triplet,
        version: identity.versions[index / TABLE_SEGMENTS],
    }
}

impl<'a> Writer<'a> {
    // The whole file, by the sections counted in each segment.
    pub fn write_file(
        &self,
        out: &mut [u8],
        identity: Identity,
        count: usize,
        sizes: Sizes,
        counts: &[u8],
    )
        requires { Writable sizes identity (all_held self.now count) counts.now out.old }
        ensures { out.new
            ≡ overwrite out.old 0
            (file_bytes self.now.base_day (sections_of sizes identity (all_held self.now count))) }
    {
        let last_table_id = table_of(segment::last_index(self.list, count)) as u8;
        let room = count::room_of(sizes);
        let mut last: u8 = 0;
        let mut at = 0;
        let mut from = 0;
        for (index, sections) in counts.iter().enumerate() {
            let sections = *sections;
            if 0 < sections {
                if index % TABLE_SEGMENTS == 0 {
                    last = last_section(&counts[index..]);
                }
                let end = segment::end_of(self.list, from, count, index);
                let header = first_header(index, sections, last, last_table_id, identity);
                at = self.write_segment(out, at, header, sections, from, end, room);
                from = end;
            }
        }
    }
}
