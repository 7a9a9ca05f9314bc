// Pools and scripts from which the samples' lists are made.
ghost use Rattle.std.specs.Prelude.{◌≡◌, ◌*◌, ◌≤◌};

use codec::fields;

// Bytes of a PUT.
pub const PUT_SIZE: usize = 18;

// Bytes of 340 PUTs.
pub const ROW_SIZE: usize = 6_120;

// Seconds that each event lasts: events a second apart touch.
const DURATION: usize = 1;

// short_event_descriptor; what stands inside is not looked at.
const TAG: u8 = 0x4D;

// Bytes of a descriptor at most: its tag, its length byte, and 255.
const DESCRIPTOR_MAX: usize = 257;

// Fills a pool with one chain: descriptors of 257 bytes and one of the rest, which must not be a single byte.
pub fn fill_pool(pool: &mut [u8]) {
    for descriptor in pool.chunks_mut(DESCRIPTOR_MAX) {
        if let [tag, length, body @ ..] = descriptor {
            *tag = TAG;
            *length = body.len() as u8;
        }
    }
}

// PUT of an event with the first bytes of its pool: the day pool with marks 0, the series pool with marks 2.
pub fn write_put(
    script: &mut [u8],
    at: usize,
    id: usize,
    start: usize,
    marks: usize,
    chain_length: usize,
) {
    if script.len() < PUT_SIZE || script.len() - PUT_SIZE < at {
        return;
    }
    fields::write_field(script, at, 1, 0x01);
    fields::write_field(script, at + 1, 2, id);
    fields::write_field(script, at + 3, 4, start);
    fields::write_field(script, at + 7, 4, DURATION);
    fields::write_field(script, at + 11, 1, marks);
    fields::write_field(script, at + 12, 4, 0);
    fields::write_field(script, at + 16, 2, chain_length);
}

// PUTs of n events from `start` on, each `apart` seconds behind the one before, with ids from 1 on and equal chains.
// Returns how many bytes they are.
pub fn write_row(script: &mut [u8], start: u32, apart: u32, n: usize, chain_length: usize) -> usize
    requires { n ≤ 340 }
    ensures { result ≡ n * 18 }
{
    for i in 0..n {
        let next = start as usize + i * apart as usize;
        write_put(script, i * PUT_SIZE, i + 1, next, 0, chain_length);
    }
    n * PUT_SIZE
}
