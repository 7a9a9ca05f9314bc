// A section's header as bytes, and back (01, "The file of sections").
ghost use Rattle.std.specs.Prelude.{◌≡◌, ◌+◌, ◌%◌, ◌≤◌, length, option_map};
ghost use Rattle.eit.specs.Fields.{field};
ghost use Rattle.sections.specs.Encode.{length_word, header_bytes};
ghost use Rattle.codec.specs.Write.{write_at};
ghost use Rattle.codec_section.specs.HeaderRead.{held_header, front_bytes, rest_bytes, header_read};

use codec::fields;
use eit::Triplet;
use eit::limits::HEADER_SIZE;

// What stands before a section's events, but for section_length and the fixed bits.
#[derive(Clone, Copy, PartialEq, Eq)]
pub struct SectionHeader {
    pub table_id: u8,
    pub section_number: u8,
    pub last_section_number: u8,
    pub segment_last_section_number: u8,
    pub last_table_id: u8,
    pub triplet: Triplet,
    pub version: u8,
}

// Bits 1111, then section_length: the bytes after this field. Of a size that is out of range, the low 16 bits.
fn length_word(size: usize) -> usize
    ensures { result ≡ length_word size % 0x1_0000 }
{
    (0xF000 + size.saturating_sub(3) % 0x1_0000) % 0x1_0000
}

// The first six bytes: table_id, section_length, service_id, version.
#[tactic(auto, using(crate::proofs::HeaderLaws::front_written))]
fn write_front(out: &mut [u8], at: usize, size: usize, header: SectionHeader)
    requires { at + 6 ≤ length out.old }
    ensures { out.new ≡ write_at out.old at (front_bytes size header) }
{
    let triplet = header.triplet;
    fields::write_field(out, at, 1, header.table_id as usize);
    fields::write_field(out, at + 1, 2, length_word(size));
    fields::write_field(out, at + 3, 2, triplet.service_id as usize);
    fields::write_field(out, at + 5, 1, 0xC0 + header.version as usize * 2 + 1);
}

// The eight bytes behind them: the section's numbers, and what every section of the file has besides.
#[tactic(auto, using(crate::proofs::HeaderLaws::rest_written))]
fn write_rest(out: &mut [u8], at: usize, header: SectionHeader)
    requires { at + 8 ≤ length out.old }
    ensures { out.new ≡ write_at out.old at (rest_bytes header) }
{
    let triplet = header.triplet;
    fields::write_field(out, at, 1, header.section_number as usize);
    fields::write_field(out, at + 1, 1, header.last_section_number as usize);
    fields::write_field(out, at + 2, 2, triplet.transport_stream_id as usize);
    fields::write_field(out, at + 4, 2, triplet.original_network_id as usize);
    fields::write_field(out, at + 6, 1, header.segment_last_section_number as usize);
    fields::write_field(out, at + 7, 1, header.last_table_id as usize);
}

// The header of a section of `size` bytes. A field holds only the bits that it has room for; a version above 31 reaches
// into the bits above it.
#[tactic(auto, using(crate::proofs::HeaderLaws::header_laws))]
pub fn write_header(out: &mut [u8], at: usize, size: usize, header: SectionHeader)
    ensures { out.new ≡ write_at out.old at (header_bytes size (held_header header)) }
{
    if !fields::is_within(out.len(), at, HEADER_SIZE) {
        return;
    }
    write_front(out, at, size, header);
    write_rest(out, at + 6, header);
}

// A field of two bytes.
#[tactic(auto, using(codec_time::proofs::TimeReadLaws::word_laws))]
fn word_at(bytes: &[u8], at: usize) -> u16
    ensures { result ≡ field at 2 bytes.now }
{
    fields::read_field(bytes, at, 2) as u16
}

// The header at the front of the bytes, if there are as many as a header has; section_length and the fixed bits are not
// looked at.
pub fn read_header(bytes: &[u8]) -> Option<SectionHeader>
    ensures { option_map held_header result ≡ header_read bytes.now }
{
    if bytes.len() < HEADER_SIZE {
        return None;
    }
    let triplet = Triplet {
        service_id: word_at(bytes, 3),
        transport_stream_id: word_at(bytes, 8),
        original_network_id: word_at(bytes, 10),
    };
    Some(SectionHeader {
        table_id: bytes[0],
        section_number: bytes[6],
        last_section_number: bytes[7],
        segment_last_section_number: bytes[12],
        last_table_id: bytes[13],
        triplet,
        version: bytes[5] / 2 % 32,
    })
}
