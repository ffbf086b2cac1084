// Typed dates: each piece is read where it stands, with one byte of look-ahead.
// A digit and a separator are read here and not by crates/readers: dates refuse with 12, and stand on no reader of codes.
ghost use Rattle.std.specs.Prelude.{true, List, ◌≡◌, ℕ, ◌+◌, ◌*◌, ◌≤◌, length, drop, IfSome};
ghost use Rattle.std.proofs.Math.Option.{some};
ghost use Rattle.paper.specs.Answers.{told_by, maybe};
ghost use Rattle.paper.specs.Numbers.{plus, natural, signed};
ghost use Rattle.paper.specs.Grammar.{all_read};
ghost use Rattle.paper.specs.Dates.{month_names, day_zero};
ghost use Rattle.paper.specs.TypedDates.{
  typed_pair,
  century,
  typed_year,
  month_called,
  typed_month,
  dated,
  typed,
};
ghost use Rattle.numbers.specs.Forms.{whole};
ghost use Rattle.dates.specs.Dated.{paper_date, code_date};
ghost use Rattle.dates.specs.Scans.{found, Within, further, parting, second, ordered, ended, form, named};

use crate::{Date, calendar};
use numbers::Number;
use paper::{Read, Refusal};

// one digit more after the number that stands before it
fn further(text: &[u8], before: u64, at: usize) -> Result<Read<u64>, Refusal>
    requires { (before ≤ 999) × (at ≤ length text.now) }
    ensures reads { further before (drop at text.now) ≡ found text.now result }
    ensures within { Within (before * 10 + 9) text.now result }
{
    match text.get(at) {
        Some(b) if b.is_ascii_digit() => Ok(Read {
            value: before * 10 + u64::from(*b - b'0'),
            next: at + 1,
        }),
        _ => Err(Refusal::NotConvertible),
    }
}

// "one or two digits for day or month"
#[tactic(auto, using(crate::proofs::TypingLaws::pair_is))]
fn pair(text: &[u8], at: usize) -> Result<Read<u64>, Refusal>
    requires { at ≤ length text.now }
    ensures reads { typed_pair (drop at text.now) ≡ found text.now result }
    ensures within { Within 99 text.now result }
{
    let one = further(text, 0, at)?;
    Ok(further(text, one.value, one.next).unwrap_or(one))
}

// "30 to 99 is 1930 to 1999, 00 to 29 is 2000 to 2029"
#[tactic(auto, unfolding(paper::specs::TypedDates::century))]
fn century(year: u64) -> u64
    requires { year ≤ 99 }
    ensures is { result ≡ century year }
    ensures within { result ≤ 9_999 }
{
    if 30 <= year {
        return 1900 + year;
    }
    2000 + year
}

// "a year of 2 or 4 digits"
// This and `ended` are compiled into `form`: as calls, what they read went through memory, and a typed date took a quarter more.
#[inline(always)]
#[tactic(auto, using(crate::proofs::TypingLaws::year_is))]
fn year(text: &[u8], at: usize) -> Result<Read<u64>, Refusal>
    requires { at ≤ length text.now }
    ensures reads { typed_year (drop at text.now) ≡ found text.now result }
    ensures within { Within 9_999 text.now result }
{
    let one = further(text, 0, at)?;
    let two = further(text, one.value, one.next)?;
    let Ok(three) = further(text, two.value, two.next) else {
        return Ok(Read {
            value: century(two.value),
            next: two.next,
        });
    };
    further(text, three.value, three.next)
}

// the number of the month of that name
fn month_called(name: [u8; 3]) -> Option<u64>
    ensures is { (rest : List ℕ) → month_called name 1 month_names rest ≡ named (maybe result) rest }
    ensures within { IfSome result (λ m. m ≤ 12) }
{
    let k = calendar::NAMES.iter().position(|month| name == *month)?;
    Some(k as u64 + 1)
}

// "three letters in either case for a month"; a byte that is no letter is in no month's name
#[tactic(auto, using(crate::proofs::NameLaws::month_short))]
fn month(text: &[u8], at: usize) -> Result<Read<u64>, Refusal>
    requires { at ≤ length text.now }
    ensures reads { typed_month (drop at text.now) ≡ found text.now result }
    ensures within { Within 12 text.now result }
{
    if text.len() - at < 3 {
        return Err(Refusal::NotConvertible);
    }
    // Raised once, and then twelve comparisons: `eq_ignore_ascii_case` would raise the letters at each name.
    let name = [
        text[at].to_ascii_uppercase(),
        text[at + 1].to_ascii_uppercase(),
        text[at + 2].to_ascii_uppercase(),
    ];
    let value = month_called(name).ok_or(Refusal::NotConvertible)?;
    Ok(Read {
        value,
        next: at + 3,
    })
}

// "the same separators": what was read, if the separator follows it
#[tactic(auto, unfolding(paper::specs::Grammar::this), using(crate::proofs::TypingLaws::ahead_is, crate::proofs::TypingLaws::ahead_none))]
fn parted(text: &[u8], r: Read<u64>, s: u8) -> Result<Read<u64>, Refusal>
    requires { (r.value ≤ 99) × (r.next ≤ length text.now) }
    ensures reads { parting s r.value (drop r.next text.now) ≡ found text.now result }
    ensures within { Within 99 text.now result }
{
    match text.get(r.next) {
        Some(b) if s == *b => Ok(Read {
            value: r.value,
            next: r.next + 1,
        }),
        _ => Err(Refusal::NotConvertible),
    }
}

// a day counted from 1 January of year 1, as counted from 31 December 1967
#[tactic(auto, using(crate::proofs::TypingLaws::from_day_zero))]
fn from_zero(n: u64) -> Number
    ensures { whole result ≡ plus (natural n) (signed true day_zero) }
{
    Number {
        negative: n < calendar::DAY_ZERO,
        size: n.abs_diff(calendar::DAY_ZERO),
    }
}

// the day of a date; 12 for "a date that isn't in the calendar"
fn day_of(d: Date) -> Result<Number, Refusal>
    requires { d.year ≤ 9_999 }
    ensures { told_by whole result ≡ dated (some (paper_date d)) }
{
    if calendar::in_calendar(d) {
        return Ok(from_zero(calendar::days_to(d)));
    }
    Err(Refusal::NotConvertible)
}

// the second piece: a month in letters, or a day; a flag and not a closure tells which, since it orders the date too
fn second(text: &[u8], at: usize, letters: bool) -> Result<Read<u64>, Refusal>
    requires { at ≤ length text.now }
    ensures reads { second letters (drop at text.now) ≡ found text.now result }
    ensures within { Within 99 text.now result }
{
    if letters {
        return month(text, at);
    }
    pair(text, at)
}

// the date of the pieces: the day comes first where the month has letters
fn ordered(letters: bool, a: u64, b: u64, year: u64) -> Date
    ensures { result ≡ code_date (ordered letters a b year) }
{
    if letters {
        return Date {
            year,
            month: b,
            day: a,
        };
    }
    Date {
        year,
        month: a,
        day: b,
    }
}

// "another form is 12": the year ends the text
#[inline(always)]
fn ended(text: &[u8], letters: bool, a: u64, b: u64, year: Read<u64>) -> Result<Number, Refusal>
    requires { (year.value ≤ 9_999) × (year.next ≤ length text.now) }
    ensures { told_by whole result ≡ dated (all_read (ended letters a b year.value (drop year.next text.now))) }
{
    if year.next < text.len() {
        return Err(Refusal::NotConvertible);
    }
    day_of(ordered(letters, a, b, year.value))
}

// the form that the code prints: two pieces, each with the separator after it, and the year
#[tactic(auto, using(crate::proofs::TypingLaws::form_is))]
fn form(text: &[u8], s: u8, letters: bool) -> Result<Number, Refusal>
    ensures { told_by whole result ≡ dated (all_read (form letters s text.now)) }
{
    let a = parted(text, pair(text, 0)?, s)?;
    let b = parted(text, second(text, a.next, letters)?, s)?;
    let y = year(text, b.next)?;
    ended(text, letters, a.value, b.value, y)
}

// the day that a text names by a code `D{n}{s}`: "A code with n = 0, a date that isn't in the calendar, or another form is 12."
#[tactic(auto, unfolding(paper::specs::TypedDates::typed), using(crate::proofs::TypingLaws::typed_blank, crate::proofs::TypingLaws::typed_byte))]
pub fn typed_date(text: &[u8], n: u64, separator: Option<u8>) -> Result<Number, Refusal>
    ensures { told_by whole result ≡ typed n (maybe separator) text.now }
{
    if n == 0 {
        return Err(Refusal::NotConvertible);
    }
    match separator {
        None => form(text, b' ', true),
        Some(s) => form(text, s, false),
    }
}
