// The types that the calls share, the least start behind an event, a caller's sizes, the time type, and the limits that
// several crates ask for. Everything else of this crate is definitions (specs/) and laws (proofs/).
#![tactic(auto)]

ghost use Rattle.std.specs.Prelude.{◌≡◌, ◌&&◌, [], ltb, leb};
ghost use Rattle.eit.specs.Sizes.{sizes_of};
ghost use Rattle.eit.specs.Limits.{window_seconds, duration_min, duration_max};
ghost use Rattle.eit.specs.Time.{time_of};
ghost use Rattle.eit.specs.Events.{event_with, least_behind};
ghost use Rattle.eit.specs.Identity.{zero_identity};

use crate::limits::{EVENTS_MAX, TABLES};

pub mod limits;

// 01's term: record. Six numbers of the lent list (01, "Event record and sound list").
#[derive(Clone, Copy)]
pub struct Record {
    pub id: u32,
    // Seconds after t0.
    pub start: u32,
    // Seconds.
    pub duration: u32,
    // A sum of 1 (free_CA_mode), 2 (series pool) and 4 (off air).
    pub marks: u32,
    // The part of its pool that holds the descriptors.
    pub offset: u32,
    pub chain_length: u32,
}

// What the search for the place of a start gives (02, W-203): the place, and how many records it looked at.
#[derive(Clone, Copy)]
pub struct Place {
    pub place: usize,
    pub looked: usize,
}

// The least start of an event that may stand behind this one: its end, where it lasts at all.
pub fn least_behind(event: Record) -> u64
    ensures { result ≡ least_behind (event_with event []) }
{
    event.start as u64 + event.duration as u64 + (event.duration == 0) as u64
}

// A DVB triplet: the ids of a service.
#[derive(Clone, Copy, Debug, PartialEq, Eq)]
pub struct Triplet {
    pub service_id: u16,
    pub transport_stream_id: u16,
    pub original_network_id: u16,
}

// 01's term: identity. The ids are the same in every section of a file, a version in every section of its table ("The
// file of sections"; 02, W-208): versions[0] is that of table 0x50.
#[derive(Clone, Copy)]
pub struct Identity {
    pub triplet: Triplet,
    pub versions: [u8; TABLES],
}

// Ids and versions 0: what a refusal of Read returns.
pub fn zero_identity() -> Identity
    ensures { result ≡ zero_identity }
{
    let triplet = Triplet {
        service_id: 0,
        transport_stream_id: 0,
        original_network_id: 0,
    };
    Identity {
        triplet,
        versions: [0; TABLES],
    }
}

// Whom a call serves (02, W-206): it decides the sizes.
#[derive(Clone, Copy)]
pub enum Caller {
    Broadcast,
    // The head-end whose multiplexer takes short sections.
    Cable,
}

// The two sizes of a caller.
#[derive(Clone, Copy)]
pub struct Sizes {
    // The most bytes of a whole section (01, "The file of sections").
    pub section_limit: u16,
    // The most events of a list or a file (01, "Event record and sound list", "The file of sections").
    pub event_limit: usize,
}

impl Sizes {
    pub const BROADCAST: Self = Sizes {
        section_limit: 4_096,
        event_limit: EVENTS_MAX,
    };

    pub const CABLE: Self = Sizes {
        section_limit: 1_024,
        event_limit: 256,
    };
}

impl From<Caller> for Sizes {
    ghost from_gives = { λ caller sizes. sizes ≡ sizes_of caller };

    fn from(caller: Caller) -> Self {
        match caller {
            Caller::Broadcast => Self::BROADCAST,
            Caller::Cable => Self::CABLE,
        }
    }
}

// A time of day or a duration, as its six BCD digits show it.
#[derive(Clone, Copy)]
pub struct Time {
    pub hours: u8,
    pub minutes: u8,
    pub seconds: u8,
}

impl Time {
    // A start is fewer seconds after t0 than this: 64 days.
    pub const WINDOW_SECONDS: u32 = 5_529_600;
    // A duration is at least a second.
    pub const DURATION_MIN: u32 = 1;
    // And at most 99:59:59.
    pub const DURATION_MAX: u32 = 359_999;
    // The most hours of a start.
    pub const START_HOURS_MAX: u8 = 23;
    // The most hours of a duration.
    pub const DURATION_HOURS_MAX: u8 = 99;
    // The most minutes of either.
    pub const MINUTES_MAX: u8 = 59;
    // And the most seconds.
    pub const SECONDS_MAX: u8 = 59;

    // A start in a record's range: seconds after t0.
    pub fn is_start(seconds: u32) -> bool
        ensures { result ≡ ltb seconds window_seconds }
    {
        seconds < Self::WINDOW_SECONDS
    }

    // A duration in a record's range.
    pub fn is_duration(seconds: u32) -> bool
        ensures { result ≡ (leb duration_min seconds && leb seconds duration_max) }
    {
        Self::DURATION_MIN <= seconds && seconds <= Self::DURATION_MAX
    }

    // So many seconds; above DURATION_MAX it is 99:59:59.
    pub fn from_seconds(seconds: u32) -> Self
        ensures { result ≡ time_of seconds }
    {
        if Self::DURATION_MAX < seconds {
            return Time {
                hours: Self::DURATION_HOURS_MAX,
                minutes: Self::MINUTES_MAX,
                seconds: Self::SECONDS_MAX,
            };
        }
        Time {
            hours: (seconds / 3600) as u8,
            minutes: (seconds / 60 % 60) as u8,
            seconds: (seconds % 60) as u8,
        }
    }
}
