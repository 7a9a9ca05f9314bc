// One event as bytes, and back (01, "The file of sections").
ghost use Rattle.std.specs.Prelude.{◌≡◌, ◌||◌, ◌+◌, ◌*◌, eqb};
ghost use Rattle.eit.specs.Pools.{marks_free_ca, marks_off_air};
ghost use Rattle.sections.specs.Encode.{running_status, bit_of, event_bytes};
ghost use Rattle.codec.specs.Write.{write_at};
ghost use Rattle.eit.specs.Events.{event_with};
ghost use Rattle.codec_section.specs.EventRead.{event_read};

use codec::{chain, fields};
use eit::Record;
use eit::limits::EVENT_OVERHEAD;

// running_status, 5 for off air, and free_CA, above the 12 bits of a chain length.
fn status_bits(marks: u32) -> usize
    ensures { result ≡ running_status (marks_off_air marks) * 0x2000 + bit_of (marks_free_ca marks) * 0x1000 }
{
    (marks / 4 % 2 * 5 * 0x2000 + marks % 2 * 0x1000) as usize
}

// Copies a chain, byte by byte: `copy_from_slice` calls memmove here, which the C library would have to bring.
fn write_chain(out: &mut [u8], at: usize, chain: &[u8])
    ensures { out.new ≡ write_at out.old at chain.now }
{
    if !fields::is_within(out.len(), at, chain.len()) {
        return;
    }
    for (i, byte) in chain.iter().enumerate() {
        out[at + i] = *byte;
    }
}

// The event of a record, with the chain that was chosen for it. A field holds only the bits that it has room for:
// of an id above 65,535 the low 16, and a chain length above 4,095 reaches into the bits above it.
#[tactic(auto, using(crate::proofs::EventWriteLaws::event_short))]
pub fn write_event(out: &mut [u8], at: usize, base_day: u32, event: Record, chain: &[u8])
    ensures { out.new
        ≡ write_at out.old at (event_bytes base_day (event_with event chain.now)) }
{
    if !fields::is_within(out.len(), at, EVENT_OVERHEAD + chain.len()) {
        return;
    }
    fields::write_field(out, at, 2, event.id as usize);
    codec_time::write_start(out, at + 2, base_day, event.start);
    codec_time::write_duration(out, at + 7, event.duration);
    fields::write_field(out, at + 10, 2, status_bits(event.marks) + chain.len());
    write_chain(out, at + EVENT_OVERHEAD, chain);
}

// running_status is 0, or 5 for off air.
fn is_status(status: u32) -> bool
    ensures { result ≡ (eqb status 0 || eqb status 5) }
{
    matches!(status, 0 | 5)
}

// The event at the front of the bytes, which go on to the end of the event loop: one that keeps the rules, its segment
// aside, with its chain's offset from its first byte. `None` where bytes are truncated or break a rule.
#[tactic(auto, using(crate::proofs::EventReadLaws::read_laws))]
pub fn read_event(bytes: &[u8], base_day: u32) -> Option<Record>
    ensures { result ≡ event_read base_day bytes.now }
{
    let word = fields::read_field(bytes, 10, 2);
    let chain_length = word % 0x1000;
    let chain = bytes.get(EVENT_OVERHEAD..EVENT_OVERHEAD + chain_length as usize)?;
    let status = word / 0x2000;
    if !is_status(status) {
        return None;
    }
    let start = codec_time::read_start(bytes, 2, base_day)?;
    let duration = codec_time::read_duration(bytes, 7)?;
    if !chain::is_chain(chain) {
        return None;
    }
    Some(Record {
        id: fields::read_field(bytes, 0, 2),
        start,
        duration,
        marks: word / 0x1000 % 2 + status / 5 * 4,
        offset: EVENT_OVERHEAD as u32,
        chain_length,
    })
}
