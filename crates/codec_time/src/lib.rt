// Starts and durations as bytes, and back (01, "The file of sections": MJD and BCD digits). Every public function is
// total: a read is `None` where bytes are truncated or broken, and a write that does not fit leaves all as it was.
#![tactic(auto)]

ghost use Rattle.std.specs.Prelude.{◌≡◌, ◌<◌};
ghost use Rattle.eit.specs.Time.{time_of, to_bcd, time_bytes, start_bytes, duration_bytes, is_bcd, of_bcd, is_bcd_up_to, is_time, seconds_of};
ghost use Rattle.codec.specs.Write.{write_at};
ghost use Rattle.codec_time.specs.TimeRead.{time_at, duration_at, start_at};

use codec::fields;
use eit::Time;
use eit::limits::SECONDS_OF_DAY;

// Two BCD digits.
fn to_bcd(n: u8) -> u8
    requires { n < 100 }
    ensures { result ≡ to_bcd n }
{
    n / 10 * 16 + n % 10
}

// Six BCD digits hhmmss.
fn write_time(out: &mut [u8], at: usize, seconds: u32)
    ensures { out.new ≡ write_at out.old at (time_bytes (time_of seconds)) }
{
    if !fields::is_within(out.len(), at, 3) {
        return;
    }
    let time = Time::from_seconds(seconds);
    let digits = [
        to_bcd(time.hours),
        to_bcd(time.minutes),
        to_bcd(time.seconds),
    ];
    out[at..at + 3].copy_from_slice(&digits);
}

pub fn write_duration(out: &mut [u8], at: usize, duration: u32)
    ensures { out.new ≡ write_at out.old at (duration_bytes duration) }
{
    write_time(out, at, duration);
}

// MJD and the time of that day.
pub fn write_start(out: &mut [u8], at: usize, base_day: u32, start: u32)
    ensures { out.new ≡ write_at out.old at (start_bytes base_day start) }
{
    if !fields::is_within(out.len(), at, 5) {
        return;
    }
    fields::write_field(
        out,
        at,
        2,
        base_day as usize + (start / SECONDS_OF_DAY) as usize,
    );
    write_time(out, at + 2, start % SECONDS_OF_DAY);
}

// The number that two BCD digits show.
fn of_bcd(byte: u8) -> u8
    ensures { result ≡ of_bcd byte }
{
    byte / 16 * 10 + byte % 16
}

// Whether both halves of the byte are decimal digits.
fn is_bcd(byte: u8) -> bool
    ensures { result ≡ is_bcd byte }
{
    byte / 16 <= 9 && byte % 16 <= 9
}

// And the number that they show is at most `most`.
fn is_bcd_up_to(most: u8, byte: u8) -> bool
    ensures { result ≡ is_bcd_up_to most byte }
{
    is_bcd(byte) && of_bcd(byte) <= most
}

// Whether they are six BCD digits hhmmss with hours of at most `most`.
fn is_time(most: u8, digits: &[u8; 3]) -> bool
    ensures { result ≡ is_time most digits.now }
{
    is_bcd_up_to(most, digits[0])
        && (is_bcd_up_to(Time::MINUTES_MAX, digits[1])
            && is_bcd_up_to(Time::SECONDS_MAX, digits[2]))
}

// The seconds of six BCD digits hhmmss.
fn seconds_of(digits: &[u8; 3]) -> u32
    ensures { result ≡ seconds_of digits.now }
{
    of_bcd(digits[0]) as u32 * 3600 + of_bcd(digits[1]) as u32 * 60 + of_bcd(digits[2]) as u32
}

// The seconds of a time with hours of at most `most`; `None` where bytes are truncated or break a rule of a time.
#[tactic(auto, unfolding(crate::specs::TimeRead::time_at))]
fn read_time(bytes: &[u8], at: usize, most: u8) -> Option<u32>
    ensures { result ≡ time_at most at bytes.now }
{
    let digits = bytes.get(at..)?.first_chunk()?;
    is_time(most, digits).then_some(seconds_of(digits))
}

// The seconds of a duration; `None` also where they are out of range.
#[tactic(auto, using(crate::proofs::TimeReadLaws::duration_laws))]
pub fn read_duration(bytes: &[u8], at: usize) -> Option<u32>
    ensures { result ≡ duration_at at bytes.now }
{
    let duration = read_time(bytes, at, Time::DURATION_HOURS_MAX)?;
    Time::is_duration(duration).then_some(duration)
}

// The seconds of a start, counted from midnight of the base day; `None` also where they are out of range. Before they
// are tested, they may pass 32 bits.
#[tactic(auto, using(crate::proofs::TimeReadLaws::start_laws))]
pub fn read_start(bytes: &[u8], at: usize, base_day: u32) -> Option<u32>
    ensures { result ≡ start_at base_day at bytes.now }
{
    if !fields::is_within(bytes.len(), at, 5) {
        return None;
    }
    let time = read_time(bytes, at + 2, Time::START_HOURS_MAX)?;
    let day = fields::read_field(bytes, at, 2).checked_sub(base_day)?;
    let start = day as usize * SECONDS_OF_DAY as usize + time as usize;
    if start < Time::WINDOW_SECONDS as usize {
        Some(start as u32)
    } else {
        None
    }
}
