// Where a start stands: its segment index, and by this its table and its segment's first section (01, "The file of
// sections").
ghost use Rattle.std.specs.Prelude.{◌≡◌};
ghost use Rattle.sections.specs.Segment.{segment_index, table_of, first_section, first_of};

use eit::limits::{SEGMENT_SECONDS, SEGMENT_SECTIONS_MAX, TABLE_FIRST, TABLE_SEGMENTS};

// 01's term: segment index. Start ÷ 10,800, rounded down.
pub fn segment_index(start: u32) -> usize
    ensures { result ≡ segment_index start }
{
    (start / SEGMENT_SECONDS) as usize
}

// Table 0x50 + index ÷ 32.
pub fn table_of(index: usize) -> usize
    ensures { result ≡ table_of index }
{
    TABLE_FIRST + index / TABLE_SEGMENTS
}

// First section s0 = 8 × segment, the segment being index mod 32.
pub fn first_section(index: usize) -> usize
    ensures { result ≡ first_section index }
{
    SEGMENT_SECTIONS_MAX * (index % TABLE_SEGMENTS)
}

// s0 = S − S mod 8: the first section of the segment that section_number S belongs to.
pub fn first_of(number: u8) -> usize
    ensures { result ≡ first_of number }
{
    let section = number as usize;
    section - section % SEGMENT_SECTIONS_MAX
}
