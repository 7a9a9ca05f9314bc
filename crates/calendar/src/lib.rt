// The date that a Modified Julian Date is (EN 300 468, annex C), for whoever reads a schedule.
#![tactic(auto)]

ghost use Rattle.std.specs.Prelude.{◌≡◌, ◌≤◌};
ghost use Rattle.calendar.specs.Date.{first_day, last_day, date_within, date_of};

#[derive(Clone, Copy, Debug, PartialEq, Eq)]
pub struct Date {
    pub year: u32,
    // 1 to 12.
    pub month: u32,
    // 1 to 31.
    pub day: u32,
}

// The annex's first day, 1900-03-01, and its last, 2100-02-28.
const FIRST_DAY: u32 = 15_079;

const LAST_DAY: u32 = 88_127;

// The annex's formulas, in whole numbers.
fn date_within(mjd: u32) -> Date
    requires first_day_le_mjd { first_day ≤ mjd }
    requires mjd_le_last_day { mjd ≤ last_day }
    ensures { result ≡ date_within mjd }
{
    let years = (mjd * 20 - 301_564) / 7_305;
    let days = mjd - years * 1_461 / 4;
    let months = (days * 10_000 - 149_561_000) / 306_001;
    // Months 14 and 15, January and February, are of the year after.
    let k = u32::from(months == 14 || months == 15);
    Date {
        year: 1_900 + years + k,
        month: months - 1 - k * 12,
        day: days - 14_956 - months * 306_001 / 10_000,
    }
}

// The date of a day; `None` before 1900-03-01 and after 2100-02-28, where the annex does not hold.
#[tactic(auto, unfolding(crate::specs::Date::date_of))]
pub fn date_of(mjd: u32) -> Option<Date>
    ensures { result ≡ date_of mjd }
{
    if mjd < FIRST_DAY || LAST_DAY < mjd {
        return None;
    }
    Some(date_within(mjd))
}
