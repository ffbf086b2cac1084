// What D prints of an element: `DD MMM YYYY`, or `MMsDDsYYYY`.
ghost use Rattle.std.specs.Prelude.{[], ◌∷◌, ◌++◌, ◌≡◌, pred, ◌+◌, ◌≤◌, length, get_or};
ghost use Rattle.paper.specs.Sizes.{entry_most};
ghost use Rattle.paper.specs.Answers.{told, sized, maybe, written};
ghost use Rattle.paper.specs.Numbers.{digits};
ghost use Rattle.paper.specs.Steps.{limited};
ghost use Rattle.paper.specs.Dates.{month_names, ranged_day, year_text, date_text, date_gives};
ghost use Rattle.lent.specs.Over.{over};
ghost use Rattle.numbers.specs.Forms.{whole};
ghost use Rattle.dates.specs.Dated.{paper_date, dated_text};

use crate::{Date, calendar};
use numbers::Number;
use paper::Refusal;

// "Empty stays empty; other non-numeric is 12."; 9 is never given, since no date has more than 11 bytes
pub fn give(e: &[u8], n: u64, separator: Option<u8>, out: &mut [u8]) -> Result<usize, Refusal>
    requires { (entry_most ≤ length out.old) × (n ≤ 4) }
    ensures value { told result ≡ sized (limited entry_most (date_gives n (maybe separator) e.now)) }
    ensures out_after { out.new ≡ written out.old (limited entry_most (date_gives n (maybe separator) e.now)) }
{
    if e.is_empty() {
        return Ok(0);
    }
    number_dated(numbers::reading::convertible(e)?, n, separator, out)
}

// the date of a number's day
#[tactic(auto, unfolding(paper::specs::Answers::written), using(crate::proofs::PrintingLaws::day_in_range, crate::proofs::PrintingLaws::date_month))]
fn number_dated(x: Number, n: u64, separator: Option<u8>, out: &mut [u8]) -> Result<usize, Refusal>
    requires { (11 ≤ length out.old) × (n ≤ 4) }
    ensures value { told result ≡ sized (dated_text n (maybe separator) (ranged_day (whole x))) }
    ensures out_after { out.new ≡ written out.old (dated_text n (maybe separator) (ranged_day (whole x))) }
{
    let day = ranged_day(x)?;
    Ok(date_text(calendar::date_of(day), n, separator, out))
}

// a day counted from 1 January of year 1; 10 for a "day outside its range"
#[tactic(auto, unfolding(paper::specs::Dates::ranged_day))]
fn ranged_day(x: Number) -> Result<u64, Refusal>
    ensures { told result ≡ ranged_day (whole x) }
{
    if x.negative {
        return calendar::DAY_ZERO
            .checked_sub(x.size)
            .ok_or(Refusal::OutOfRange);
    }
    if x.size <= calendar::LAST_DAY {
        return Ok(calendar::DAY_ZERO + x.size);
    }
    Err(Refusal::OutOfRange)
}

// "Without s `DD MMM YYYY`, with s `MMsDDsYYYY`"
#[tactic(auto, using(crate::proofs::PrintingLaws::year_most))]
fn date_text(d: Date, n: u64, separator: Option<u8>, out: &mut [u8]) -> usize
    requires { (11 ≤ length out.old) × (n ≤ 4) × (1 ≤ d.month) × (d.month ≤ 12) }
    ensures value { result ≡ length (date_text n (maybe separator) (paper_date d)) }
    ensures out_after { out.new ≡ over out.old 0 (date_text n (maybe separator) (paper_date d)) }
{
    match separator {
        None => {
            pair_text(d.day, b' ', out);
            name_text(d.month, out);
            year_text(n, b' ', d.year, out, 6) + 6
        }
        Some(s) => {
            pair_text(d.month, s, out);
            numbers::writing::digits(d.day, 2, out, 3);
            year_text(n, s, d.year, out, 5) + 5
        }
    }
}

// two digits and what parts them from the next piece, at the front
fn pair_text(number: u64, s: u8, out: &mut [u8])
    requires { 3 ≤ length out.old }
    ensures { out.new ≡ over out.old 0 (digits 2 number ++ s ∷ []) }
{
    numbers::writing::digits(number, 2, out, 0);
    out[2] = s;
}

// "months in capitals": the name, after two digits and a blank
fn name_text(month: u64, out: &mut [u8])
    requires { (6 ≤ length out.old) × (1 ≤ month) × (month ≤ 12) }
    ensures { out.new ≡ over out.old 3 (get_or month_names (pred month) []) }
{
    lent::copy_in(&calendar::NAMES[(month - 1) as usize], out, 3);
}

// "the year's last n digits, of its four with zeros in front; n = 0 drops the year and the separator before it"
fn year_text(n: u64, s: u8, year: u64, out: &mut [u8], at: usize) -> usize
    requires { (at + 5 ≤ length out.old) × (n ≤ 4) }
    ensures value { result ≡ length (year_text n s year) }
    ensures out_after { out.new ≡ over out.old at (year_text n s year) }
{
    if n == 0 {
        return 0;
    }
    let k = n as usize;
    out[at] = s;
    numbers::writing::digits(year, k, out, at + 1);
    k + 1
}
