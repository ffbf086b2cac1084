// Numeric form and its value: `form` alone decides what has numeric form.
ghost use Rattle.std.specs.Prelude.{◌≡◌, ◌≤◌, length, drop};
ghost use Rattle.paper.specs.Answers.{told_by, maybe_by};
ghost use Rattle.paper.specs.Bytes.{digit_value};
ghost use Rattle.paper.specs.Numbers.{value, digits_alone, sign_and_digits, after_blanks, before_blanks, within_blanks, numeric, ranged};
ghost use Rattle.numbers.specs.Forms.{whole, in_range, convertible};
ghost use Rattle.numbers.specs.Scans.{raised, value_form};

use crate::{MOST, Number};
use paper::Refusal;

// What ML, MR and D convert: "other non-numeric is 12"
pub fn convertible(e: &[u8]) -> Result<Number, Refusal>
    ensures { told_by whole result ≡ convertible (numeric e.now) }
{
    form(e).unwrap_or(Err(Refusal::NotConvertible))
}

// "Numeric form should ignore blanks (byte 32) before and after, not between." (document 02, L3)
// A string's numeric form, if it has one: its value, 10 where that is out of range.
// Compiled into each caller: as a call, its answer went through memory, and a relation on short numbers took a fifth more.
#[inline(always)]
#[tactic(auto, unfolding(paper::specs::Numbers::numeric))]
pub(crate) fn form(s: &[u8]) -> Option<Result<Number, Refusal>>
    ensures { maybe_by (told_by whole) result ≡ in_range (numeric s.now) }
{
    sign_and_digits(within_blanks(s))
}

// The part of a text that is read: what stands within its blanks. Most have none, and two looks tell it.
#[tactic(auto, unfolding(paper::specs::Numbers::within_blanks), using(crate::proofs::ReadingLaws::no_blanks))]
fn within_blanks(s: &[u8]) -> &[u8]
    ensures { result.now ≡ within_blanks s.now }
{
    let end = s.len();
    if end == 0 {
        return s;
    }
    if (s[0] != b' ') & (s[end - 1] != b' ') {
        return s;
    }
    before_blanks(after_blanks(s))
}

// What stands after the blanks that come first.
#[tactic(auto, using(crate::proofs::ReadingLaws::first_blanks))]
fn after_blanks(mut s: &[u8]) -> &[u8]
    ensures { result.now ≡ after_blanks s.now }
{
    while let [first, rest @ ..] = s
        && *first == b' '
    {
        s = rest;
    }
    s
}

// What stands before the blanks that come last.
#[tactic(auto, using(crate::proofs::ReadingLaws::last_blanks))]
fn before_blanks(mut s: &[u8]) -> &[u8]
    ensures { result.now ≡ before_blanks s.now }
{
    while let [rest @ .., last] = s
        && *last == b' '
    {
        s = rest;
    }
    s
}

// "an optional `+` or `-`, then one or more digits"
fn sign_and_digits(s: &[u8]) -> Option<Result<Number, Refusal>>
    ensures { maybe_by (told_by whole) result ≡ in_range (sign_and_digits s.now) }
{
    if s.is_empty() {
        return None; // "blanks alone is still not numeric": nothing stands within them
    }
    let first = s[0];
    let mut at = 0;
    // Most begin with a digit, and one look lets them by; a sign is jumped over, so that the digits do not wait for it (a match in its place: slower).
    if first < b'0' {
        match first {
            b'+' | b'-' => at = 1,
            _ => return None,
        }
    }
    digits_alone(&s[at..], first == b'-')
}

// "then one or more digits"
#[tactic(auto, using(crate::proofs::ReadingLaws::some_digits))]
fn digits_alone(s: &[u8], negative: bool) -> Option<Result<Number, Refusal>>
    ensures { maybe_by (told_by whole) result ≡ in_range (digits_alone negative s.now) }
{
    if s.is_empty() {
        return None;
    }
    value_form(s, negative)
}

// the value of the digits
#[tactic(auto, using(crate::proofs::ReadingLaws::in_turn))]
fn value_form(s: &[u8], negative: bool) -> Option<Result<Number, Refusal>>
    ensures { maybe_by (told_by whole) result ≡ value_form negative (value 0 s.now) }
{
    let mut size: u64 = 0;
    for &b in s {
        if !b.is_ascii_digit() {
            return None;
        }
        size = raised(size, b);
    }
    Some(ranged(Number::signed(negative, size)))
}

// one digit more; a size over the limit stays as it is, however many digits follow
#[tactic(auto, unfolding(crate::specs::Scans::raised, paper::specs::Bytes::digit_value))]
fn raised(size: u64, b: u8) -> u64
    requires { (48 ≤ b) × (b ≤ 57) }
    ensures { result ≡ raised size (digit_value b) }
{
    if MOST < size {
        return size;
    }
    size * 10 + u64::from(b - b'0')
}

// a number in range, or 10
#[tactic(auto, using(crate::proofs::ReadingLaws::over_limit, crate::proofs::ReadingLaws::in_limit))]
pub(crate) fn ranged(x: Number) -> Result<Number, Refusal>
    ensures { told_by whole result ≡ ranged (whole x) }
{
    if MOST < x.size {
        return Err(Refusal::OutOfRange);
    }
    Ok(x)
}
