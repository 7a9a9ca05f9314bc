// A section's frame and its CRC_32 (01, "The file of sections").
ghost use Rattle.std.specs.Prelude.{◌≡◌};
ghost use Rattle.sections.specs.HeaderTests.{is_table, is_framed};
ghost use Rattle.read_checks.specs.RightCrc.{has_right_crc_by};

use codec::fields;
use codec_crc::{CRC_ENTRIES, CRC_FIRST};
use eit::Sizes;
use eit::limits::{SECTION_OVERHEAD, TABLE_FIRST, TABLE_MAX};

// Whether a number is a table_id of an EIT schedule of this work.
pub fn is_table(table_id: u32) -> bool
    ensures { result ≡ is_table table_id }
{
    TABLE_FIRST as u32 <= table_id && table_id <= TABLE_MAX as u32
}

// 20: the section is not truncated, and its table_id and its length are in range.
#[tactic(auto, unfolding(sections::specs::HeaderTests::is_framed))]
pub fn is_framed(section: &[u8], sizes: Sizes) -> bool
    ensures { result ≡ is_framed sizes section.now }
{
    let size = section.len();
    size == read_walk::stated_size(section)
        && SECTION_OVERHEAD <= size
        && size <= sizes.section_limit as usize
        && is_table(fields::read_field(section, 0, 1))
}

// 21: over the whole section CRC_32 leaves 0, by the lent tables.
pub fn has_right_crc(crc_tables: &[u32; CRC_ENTRIES], section: &[u8]) -> bool
    ensures { result ≡ has_right_crc_by crc_tables.now section.now }
{
    codec_crc::crc_by(crc_tables, CRC_FIRST, section) == 0
}
