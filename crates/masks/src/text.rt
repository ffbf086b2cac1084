// A text without its fill, from its right end: each piece is laid in front of what is there, and its place comes back.
// `text` and `at` are two parameters: a struct of both would hold `at ≤ length text` for seven contracts, whose `Laid` names both again, before and after.
// A suffix has at most 2 bytes, decimals and their point 10, integer digits and their commas 19, sign and `$` one each: 33 in all.
ghost use Rattle.std.specs.Prelude.{[], ◌∷◌, ◌++◌, ◌≡◌, ◌/◌, ◌^◌, ◌≤◌, length};
ghost use Rattle.paper.specs.Sizes.{number_most};
ghost use Rattle.paper.specs.Masks.{integer_text, point_text, before_digits, after_digits, masked_text};
ghost use Rattle.numbers.specs.Forms.{whole};
ghost use Rattle.codes.specs.Meaning.{credit_of, mask_of};
ghost use Rattle.lent.specs.Over.{Laid};
ghost use Rattle.masks.specs.Pieces.{alone, or_blank};

use codes::{Credit, Mask};
use numbers::{Number, writing};

// "`$` is the leftmost byte of the text, left of any `<`."
pub(crate) fn masked_text(text: &mut [u8], y: Number, mask: Mask) -> usize
    requires { (y.size ≤ number_most) × (mask.decimals ≤ 9) × (33 ≤ length text.old) }
    ensures { Laid (masked_text (mask_of mask) (whole y)) text.old (length text.old) text.new result }
{
    let end = text.len();
    let suffix = after_digits(text, end, mask.credits, y);
    let digits = digits_text(text, suffix, mask.decimals, mask.commas, y.size);
    let sign = put_some(text, digits, sign_byte(mask.credits, y.negative));
    put_some(text, sign, mask.dollar.then_some(b'$'))
}

// integer digits, and decimals behind a point
fn digits_text(text: &mut [u8], at: usize, decimals: u64, commas: bool, size: u64) -> usize
    requires { (size ≤ number_most) × (decimals ≤ 9) × (29 ≤ at) × (at ≤ length text.old) }
    ensures { Laid (integer_text commas (size / 10 ^ decimals) ++ point_text decimals size) text.old at text.new result }
{
    let point = point_text(text, at, decimals, size);
    let over = writing::power(decimals as usize);
    integer_text(text, point, commas, size / over)
}

// "without the point" where n is 0 (001, 4.9)
fn point_text(text: &mut [u8], at: usize, decimals: u64, size: u64) -> usize
    requires { (decimals ≤ 9) × (10 ≤ at) × (at ≤ length text.old) }
    ensures { Laid (point_text decimals size) text.old at text.new result }
{
    if decimals == 0 {
        return at;
    }
    let count = decimals as usize;
    let first = at - count;
    writing::digits(size, count, text, first);
    put(text, first, b'.')
}

// "at least one digit before the point"; "A comma goes in at every three integer digits."
fn integer_text(text: &mut [u8], at: usize, commas: bool, n: u64) -> usize
    requires { (n ≤ number_most) × (19 ≤ at) × (at ≤ length text.old) }
    ensures { Laid (integer_text commas n) text.old at text.new result }
{
    let mut place = put(text, at, b'0' + (n % 10) as u8);
    let mut rest = n / 10;
    let mut count: u64 = 1; // the digits laid so far
    // A `while`: it ends when no digit is left, and how many there are is not known before.
    while 0 < rest {
        let comma = commas & (count % 3 == 0);
        place = put_some(text, place, comma.then_some(b','));
        place = put(text, place, b'0' + (rest % 10) as u8);
        rest /= 10;
        count += 1;
    }
    place
}

// "Suffixes as in 000 section 2.9, blanks included"
fn after_digits(text: &mut [u8], at: usize, credits: Option<Credit>, y: Number) -> usize
    requires { (2 ≤ at) × (at ≤ length text.old) }
    ensures { Laid (after_digits (credit_of credits) (whole y)) text.old at text.new result }
{
    let Some(credit) = credits else {
        return at;
    };
    let negative = y.negative;
    match credit {
        Credit::Credit => put_pair(text, at, negative, b'C', b'R'),
        Credit::Debit => put_pair(text, at, !(negative | (y.size == 0)), b'D', b'B'),
        Credit::Enclosed => put(text, at, or_blank(negative, b'>')),
        Credit::Trailing => put(text, at, or_blank(negative, b'-')),
        Credit::Suppressed => at,
    }
}

// the byte before the digits: "C, E, M, N drop the leading minus"
#[tactic(auto, unfolding(paper::specs::Masks::before_digits, codes::specs::Meaning::credit_of, paper::specs::Bytes::bytes))]
fn sign_byte(credits: Option<Credit>, negative: bool) -> Option<u8>
    ensures { alone result ≡ before_digits (credit_of credits) negative }
{
    if !negative {
        return None;
    }
    let Some(credit) = credits else {
        return Some(b'-');
    };
    match credit {
        Credit::Debit => Some(b'-'),
        Credit::Enclosed => Some(b'<'),
        Credit::Credit | Credit::Trailing | Credit::Suppressed => None,
    }
}

// two bytes, or two blanks
fn put_pair(text: &mut [u8], at: usize, on: bool, a: u8, b: u8) -> usize
    requires { (2 ≤ at) × (at ≤ length text.old) }
    ensures { Laid (or_blank on a ∷ or_blank on b ∷ []) text.old at text.new result }
{
    let last = put(text, at, or_blank(on, b));
    put(text, last, or_blank(on, a))
}

// a byte, or a blank
#[tactic(auto, unfolding(crate::specs::Pieces::or_blank))]
fn or_blank(on: bool, b: u8) -> u8
    ensures { result ≡ or_blank on b }
{
    if on { b } else { b' ' }
}

// one byte, or none
#[tactic(auto, using(lent::proofs::Laying::laid_none))]
fn put_some(text: &mut [u8], at: usize, byte: Option<u8>) -> usize
    requires { (1 ≤ at) × (at ≤ length text.old) }
    ensures { Laid (alone byte) text.old at text.new result }
{
    match byte {
        Some(b) => put(text, at, b),
        None => at,
    }
}

// one byte in front of the text
#[tactic(auto, using(lent::proofs::Laying::laid_one))]
fn put(text: &mut [u8], at: usize, b: u8) -> usize
    requires { (1 ≤ at) × (at ≤ length text.old) }
    ensures { Laid (b ∷ []) text.old at text.new result }
{
    let place = at - 1;
    text[place] = b;
    place
}
