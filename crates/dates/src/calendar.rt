// The calendar: days counted from 1 January of year 1, and their dates.
ghost use Rattle.std.specs.Prelude.{◌≡◌, true, ◌+◌, ◌≤◌, ◌<◌, get_or, if◌then◌else◌};
ghost use Rattle.paper.specs.Dates.{leap, month_lengths, days_before_year, days_in, days_to, year_of, month_day, date_of, day_zero, last_day};
ghost use Rattle.paper.specs.TypedDates.{in_calendar};
ghost use Rattle.dates.specs.Dated.{paper_date, code_date};

use crate::Date;

// "day 0 is 31 December 1967 .. from -718,430 (1 January of year 1) to 2,933,628 (31 December 9999)"
pub(crate) const DAY_ZERO: u64 = 718_430;

pub(crate) const LAST_DAY: u64 = 2_933_628;

// The months' names. Document 01's form: a constant table.
pub(crate) const NAMES: [[u8; 3]; 12] = [
    *b"JAN", *b"FEB", *b"MAR", *b"APR", *b"MAY", *b"JUN", *b"JUL", *b"AUG", *b"SEP", *b"OCT",
    *b"NOV", *b"DEC",
];

// The lengths of the months of a common year. Document 01's form: a constant table.
const LENGTHS: [u64; 12] = [31, 28, 31, 30, 31, 30, 31, 31, 30, 31, 30, 31];

// "Gregorian rules both ways"
#[tactic(auto, unfolding(paper::specs::Dates::leap))]
fn leap(year: u64) -> bool
    ensures { result ≡ leap year }
{
    (year % 4 == 0) & ((year % 100 != 0) | (year % 400 == 0))
}

// how many days the month has, months counted from 0
#[tactic(auto, using(crate::proofs::Tables::length_at))]
fn month_length(year: u64, month: u64) -> u64
    requires { month < 12 }
    ensures { result ≡ get_or (month_lengths year) month 0 }
{
    LENGTHS[month as usize] + u64::from(leap(year) & (month == 1))
}

// the days of the year before the month, months counted from 0; before month 12, the whole year
fn days_before_month(year: u64, month: u64) -> u64
    requires { month ≤ 12 }
    ensures { result ≡ days_in month (month_lengths year) }
{
    // With 30 days in February, seven months would have 31 and five 30, evenly spread: (7 m + 5) / 12 of the seven come before month m.
    // So 30 m + (7 m + 5) / 12 = (367 m + 5) / 12 days would come before it; from March on 2 fewer do, as February has 28, in a leap year 1, as it has 29.
    (367 * month + 5) / 12 + u64::from((1 < month) & leap(year)) - 2 * u64::from(1 < month)
}

// the days from 1 January of year 1 to 1 January of the year
#[tactic(auto, unfolding(paper::specs::Dates::days_before_year))]
fn days_before_year(year: u64) -> u64
    requires { (1 ≤ year) × (year ≤ 10_000) }
    ensures { result ≡ days_before_year year }
{
    let passed = year - 1;
    365 * passed + passed / 4 - passed / 100 + passed / 400
}

// the year of day n, without a loop: 400 years have 146,097 days, so that a division gives it or the one before
#[tactic(auto, using(crate::proofs::CalendarLaws::year_next, crate::proofs::CalendarLaws::year_same))]
fn year_of(n: u64) -> u64
    requires { n ≤ day_zero + last_day }
    ensures { result ≡ year_of n }
{
    let year = n * 400 / 146_097 + 1;
    if days_before_year(year + 1) <= n {
        return year + 1;
    }
    year
}

// the date of the year's n-th day, from 0: with 30 days in February it would be day d, and its month is the last m that has begun by then,
// (367 m + 5) / 12 <= d, which is to say 367 m <= 12 d + 6
fn month_day(year: u64, n: u64) -> Date
    requires { n < days_in 12 (month_lengths year) }
    ensures { result ≡ code_date (month_day year 1 (month_lengths year) n) }
{
    let from_march = days_before_month(year, 2) <= n;
    let d = n + 2 * u64::from(from_march) - u64::from(from_march & leap(year));
    let month = (12 * d + 6) / 367;
    Date {
        year,
        month: month + 1,
        day: n - days_before_month(year, month) + 1,
    }
}

// the date of day n, counted from 1 January of year 1
pub(crate) fn date_of(n: u64) -> Date
    requires { n ≤ day_zero + last_day }
    ensures { result ≡ code_date (date_of n) }
{
    let year = year_of(n);
    month_day(year, n - days_before_year(year))
}

// the days from 1 January of year 1 to a date of the calendar
pub(crate) fn days_to(d: Date) -> u64
    requires { (in_calendar (paper_date d) ≡ true) × (d.year ≤ 9_999) }
    ensures { result ≡ days_to (paper_date d) }
{
    days_before_year(d.year) + days_before_month(d.year, d.month - 1) + (d.day - 1)
}

// whether the calendar has the date
#[tactic(auto, unfolding(paper::specs::TypedDates::in_calendar))]
pub(crate) fn in_calendar(d: Date) -> bool
    ensures { result ≡ in_calendar (paper_date d) }
{
    if !(1..=12).contains(&d.month) {
        return false;
    }
    (0 < d.year) & ((1 <= d.day) & (d.day <= month_length(d.year, d.month - 1)))
}
