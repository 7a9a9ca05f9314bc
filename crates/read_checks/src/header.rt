// A section's header beside those before it: fixed bits, identity, last_table_id (01, "The file of sections"; 02,
// W-208).
ghost use Rattle.std.specs.Prelude.{◌≡◌, option_map};
ghost use Rattle.codec_section.specs.HeaderRead.{held_header};
ghost use Rattle.sections.specs.HeaderTests.{has_fixed_bits, is_same_file};
ghost use Rattle.read_checks.specs.HeaderBefore.{header_before, is_table_version, checked_header};

use crate::frame;
use codec::fields;
use codec_section::header::SectionHeader;
use codec_section::{header, version};

// Bits 1111 before section_length; bits 11 before the version, and current_next 1 behind it.
fn has_fixed_bits(section: &[u8]) -> bool
    ensures { result ≡ has_fixed_bits section.now }
{
    let version = fields::read_field(section, 5, 1);
    fields::read_field(section, 1, 2) / 0x1000 == 0xF && version / 64 == 3 && version % 2 == 1
}

// Triplet and last_table_id are those of the section before.
fn is_same_file(before: Option<SectionHeader>, header: SectionHeader) -> bool
    ensures { result ≡ is_same_file (header_before before) (held_header header) }
{
    before.is_none_or(|last| {
        header.triplet == last.triplet && header.last_table_id == last.last_table_id
    })
}

// The version is that of the section's table, if the table has come: tables come one behind the other, so it has come
// unless it is past that of the section before.
fn is_table_version(before: Option<SectionHeader>, versions: &[u8], header: SectionHeader) -> bool
    ensures { result ≡ is_table_version (header_before before) versions.now (held_header header) }
{
    before.is_none_or(|last| {
        last.table_id < header.table_id
            || header.version == version::version_of(versions, header.table_id)
    })
}

// 22: the header of a section whose fixed bits, identity and last_table_id pass, with the versions of the tables so
// far.
pub fn check_header(
    before: Option<SectionHeader>,
    versions: &[u8],
    section: &[u8],
) -> Option<SectionHeader>
    ensures { option_map held_header result ≡ checked_header (header_before before) versions.now section.now }
{
    let shown = header::read_header(section)?;
    let passes = has_fixed_bits(section)
        && frame::is_table(shown.last_table_id as u32)
        && is_same_file(before, shown)
        && is_table_version(before, versions, shown);
    passes.then_some(shown)
}
