// CRC_32 by eight tables, eight bytes a step (01, "The file of sections").
#![tactic(auto)]

ghost use Rattle.std.specs.Prelude.{◌≡◌, ◌≤◌, ◌<◌, length};
ghost use Rattle.eit.specs.Crc.{crc_of, crc32};
ghost use Rattle.codec_crc.specs.CrcTables.{block_size, right_crc_tables, chosen_entry, crc_block, crc_by};

use crate::entries::ENTRIES;

mod entries;

// Bytes of a step: as many as there are tables.
const BLOCK_SIZE: usize = 8;

// Entries of a table, one for each byte, and of all eight.
const TABLE_SIZE: usize = 256;

pub const CRC_ENTRIES: usize = 2_048;

// What the register holds first.
pub const CRC_FIRST: u32 = 0xFFFF_FFFF;

// The entry that the register's high byte and a byte choose, with so many bytes behind it in the block.
fn entry(tables: &[u32; CRC_ENTRIES], behind: usize, register: u32, byte: u8) -> u32
    requires { behind < block_size }
    ensures { result ≡ chosen_entry tables.now behind register byte }
{
    tables[behind * TABLE_SIZE + ((register >> 24) ^ byte as u32) as usize]
}

// The register after a block of bytes: each adds the entry that it chooses, and the rest of the register moves up.
#[tactic(auto, using(crate::proofs::BlockLaws::block_step, crate::proofs::BlockLaws::block_end))]
fn crc_block(tables: &[u32; CRC_ENTRIES], register: u32, block: &[u8]) -> u32
    requires { length block.now ≤ block_size }
    ensures { result ≡ crc_block tables.now register block.now }
{
    let mut chosen: u32 = 0;
    let mut rest = register;
    for (i, byte) in block.iter().enumerate() {
        chosen ^= entry(tables, block.len() - 1 - i, rest, *byte);
        rest <<= 8;
    }
    chosen ^ rest
}

// The register after the bytes, by any tables: block by block, and the bytes behind the last whole block.
pub fn crc_by(tables: &[u32; CRC_ENTRIES], register: u32, bytes: &[u8]) -> u32
    ensures { result ≡ crc_by tables.now register bytes.now }
{
    let (blocks, behind) = bytes.as_chunks::<BLOCK_SIZE>();
    let mut r = register;
    for block in blocks {
        r = crc_block(tables, r, block);
    }
    crc_block(tables, r, behind)
}

// A copy of the eight tables, which are the right ones.
pub fn tables() -> [u32; CRC_ENTRIES]
    ensures { result ≡ right_crc_tables }
{
    ENTRIES
}

// The right tables: one copy per call of the library, lent down from there.
#[derive(Drop)]
pub struct CrcTables {
    entries: [u32; CRC_ENTRIES],
    ghost are_right: { entries ≡ right_crc_tables },
}

impl CrcTables {
    pub fn new() -> CrcTables {
        let entries = tables();
        CrcTables { entries }
    }

    // The tables themselves, for what takes any.
    pub fn entries(&self) -> &[u32; CRC_ENTRIES]
        ensures { result.now ≡ right_crc_tables }
    {
        &self.entries
    }

    // The register after the bytes.
    pub fn register_after(&self, register: u32, bytes: &[u8]) -> u32
        ensures { result ≡ crc_of register bytes.now }
    {
        crc_by(&self.entries, register, bytes)
    }

    #[tactic(auto, unfolding(eit::specs::Crc::crc32))]
    pub fn crc32(&self, bytes: &[u8]) -> u32
        ensures { result ≡ crc32 bytes.now }
    {
        self.register_after(CRC_FIRST, bytes)
    }
}

pub fn crc32(bytes: &[u8]) -> u32
    ensures { result ≡ crc32 bytes.now }
{
    CrcTables::new().crc32(bytes)
}
