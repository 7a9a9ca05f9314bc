// Limits of document 01 that several crates ask for.

// Events in a list or a file at most, for any caller ("Event record and sound list", "The file of sections").
pub const EVENTS_MAX: usize = 2_048;

// A record's id is at most 65,535, its marks are 0 to 7 ("Event record and sound list").
pub const ID_MAX: u32 = 65_535;

pub const MARKS_MAX: u32 = 7;

// The base day is a Modified Julian Date of 0 to 65,472 ("Event record and sound list").
pub const BASE_DAY_MAX: u32 = 65_472;

// A version has 5 bits, 0 to 31 ("The file of sections").
pub const VERSION_MAX: u8 = 31;

// Seconds in a day ("The file of sections": a start is an MJD and a time of day).
pub const SECONDS_OF_DAY: u32 = 86_400;

// Words of a set that has a bit for each id, 0 to 65,535.
pub const ID_WORDS: usize = 1_024;

// Bytes of a section before its events, those of CRC_32 behind them, and both ("The file of sections").
pub const HEADER_SIZE: usize = 14;

pub const CRC_SIZE: usize = 4;

pub const SECTION_OVERHEAD: usize = 18;

// Bytes of an event before its chain.
pub const EVENT_OVERHEAD: usize = 12;

// table_id, 0x50 to 0x5F ("The file of sections").
pub const TABLE_FIRST: usize = 0x50;

pub const TABLE_MAX: usize = 0x5F;

// Start ÷ 10,800, rounded down, is the segment index 0 to 511 ("The file of sections").
pub const SEGMENT_SECONDS: u32 = 10_800;

pub const SEGMENTS: usize = 512;

// Sixteen tables of thirty-two section counts ("Build, Read"): table 0x50 + index ÷ 32, segment index mod 32 ("The file
// of sections").
pub const TABLES: usize = 16;

pub const TABLE_SEGMENTS: usize = 32;

// First section s0 = 8 × segment; a segment that would need a ninth section is unpackable ("The file of sections",
// "Build, Read").
pub const SEGMENT_SECTIONS_MAX: usize = 8;
