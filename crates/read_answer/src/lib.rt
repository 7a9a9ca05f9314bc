// What Read says: a case for each cause of 01's table ("When a call says no").
#![tactic(auto)]

ghost use Rattle.std.specs.Prelude.{◌≡◌};
ghost use Rattle.std.proofs.Common.{rules};
ghost use Rattle.read_answer.specs.Outcome.{outcome_of};

use eit::Identity;
use refusal::Refusal;

#[derive(Clone, Copy, Debug, PartialEq, Eq)]
pub enum ReadError {
    // 1: the base day is above 65,472.
    BaseDay,
    // 20: a section is truncated, or its table_id or length is out of range; the section's offset.
    Frame(usize),
    // 21: CRC_32; the section's offset.
    Crc(usize),
    // 22: fixed bits, identity or last_table_id; the section's offset.
    Header(usize),
    // 23: numbering, or a table past last_table_id; the section's offset.
    Numbering(usize),
    // 24: the event loop breaks a rule; the section's offset.
    EventLoop(usize),
    // 25: the file ends early, or is empty; the file's length.
    EarlyEnd(usize),
    // 26: event 2,049, for cable event 257; the section's offset.
    EventLimit(usize),
    // 27: the record buffer is short; the number of events.
    RecordsShort(usize),
}

// A file that is accepted: its identity, and the number of its events.
#[derive(Clone, Copy)]
pub struct FileRead {
    pub identity: Identity,
    pub count: usize,
}

impl Refusal for ReadError {
    ghost use Rattle.read_answer.specs.Outcome.{error_number, error_value};

    ghost number_by = { error_number };

    ghost value_by = { error_value };

    fn number(self) -> u32 {
        match self {
            ReadError::BaseDay => 1,
            ReadError::Frame(_) => 20,
            ReadError::Crc(_) => 21,
            ReadError::Header(_) => 22,
            ReadError::Numbering(_) => 23,
            ReadError::EventLoop(_) => 24,
            ReadError::EarlyEnd(_) => 25,
            ReadError::EventLimit(_) => 26,
            ReadError::RecordsShort(_) => 27,
        }
    }

    fn value(self) -> usize {
        match self {
            ReadError::BaseDay => 0,
            ReadError::Frame(offset)
            | ReadError::Crc(offset)
            | ReadError::Header(offset)
            | ReadError::Numbering(offset)
            | ReadError::EventLoop(offset)
            | ReadError::EventLimit(offset) => offset,
            ReadError::EarlyEnd(size) => size,
            ReadError::RecordsShort(events) => events,
        }
    }

    ghost never_0 = { Prim.search rules };
}

// How many events Read returns: none with a refusal.
pub fn count_of(read: Result<FileRead, ReadError>) -> usize
    ensures { result ≡ (outcome_of read).count }
{
    match read {
        Ok(file) => file.count,
        Err(_) => 0,
    }
}
