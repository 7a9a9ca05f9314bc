// One section written: its header, its events, CRC_32 (01, "The file of sections"). Each chain goes straight from its
// pool to the output.
ghost use Rattle.std.specs.Prelude.{◌≡◌, ◌+◌, ◌≤◌, length};
ghost use Rattle.eit.specs.Overwrite.{overwrite};
ghost use Rattle.sections.specs.Section.{event_sizes};
ghost use Rattle.sections.specs.Encode.{event_loop_bytes, section_bytes};
ghost use Rattle.build.specs.Held.{held};
ghost use Rattle.build.specs.Sections.{section_of, section_size_of};

use codec::fields;
use codec::pools::Pools;
use codec_crc::CrcTables;
use codec_section::header::SectionHeader;
use codec_section::{event, header};
use eit::limits::{CRC_SIZE, EVENT_OVERHEAD, HEADER_SIZE};
use list_records::records;

// What every section of a file is written from.
#[derive(Drop)]
pub struct Writer<'a> {
    pub base_day: u32,
    pub list: &'a [u32],
    pub pools: &'a Pools<'a>,
    pub crc_tables: &'a CrcTables,
}

impl<'a> Writer<'a> {
    // The events from `from` to `to`, written from `at` on. Returns the offset behind them.
    fn write_events(&self, out: &mut [u8], at: usize, from: usize, to: usize) -> usize
        requires { at + event_sizes (held self.now from to) ≤ length out.old }
        ensures { out.new ≡ overwrite out.old at (event_loop_bytes self.now.base_day (held self.now from to))
            × (result ≡ at + event_sizes (held self.now from to)) }
    {
        let mut offset = at;
        for i in from..to {
            let r = records::record_at(self.list, i);
            let chain = self.pools.choose(r.marks, r.offset, r.chain_length);
            event::write_event(out, offset, self.base_day, r, chain);
            offset += EVENT_OVERHEAD + chain.len();
        }
        offset
    }

    // The section of `size` bytes with the events from `from` to `to`, written from `at` on.
    pub fn write_section(
        &self,
        out: &mut [u8],
        at: usize,
        size: usize,
        header: SectionHeader,
        from: usize,
        to: usize,
    )
        requires { (size ≡ section_size_of (held self.now from to)) × (at + size ≤ length out.old) }
        ensures { out.new
            ≡ overwrite out.old at (section_bytes self.now.base_day (section_of header (held self.now from to))) }
    {
        header::write_header(out, at, size, header);
        let end = self.write_events(out, at + HEADER_SIZE, from, to);
        let crc = self.crc_tables.crc32(&out[at..end]);
        fields::write_field(out, end, CRC_SIZE, crc as usize);
    }
}
