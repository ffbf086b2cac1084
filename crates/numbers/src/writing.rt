// Decimal text: digits of a fixed width, a size without leading zeros, and a number with its sign.
ghost use Rattle.std.specs.Prelude.{◌++◌, ◌≡◌, ◌+◌, ◌^◌, ◌≤◌, length, take, drop};
ghost use Rattle.paper.specs.Sizes.{number_digits, number_most};
ghost use Rattle.paper.specs.Numbers.{digits, decimal, number_text};
ghost use Rattle.numbers.specs.Forms.{whole};

use crate::Number;
use paper::Limit;

// The digits of the largest number in range.
const DIGITS: usize = Limit::DIGITS.most;

// Document 01's form: a constant table.
const POWERS: [u64; DIGITS + 1] = [
    1,
    10,
    100,
    1_000,
    10_000,
    100_000,
    1_000_000,
    10_000_000,
    100_000_000,
    1_000_000_000,
    10_000_000_000,
    100_000_000_000,
    1_000_000_000_000,
    10_000_000_000_000,
    100_000_000_000_000,
    1_000_000_000_000_000,
];

// ten to the n
pub fn power(n: usize) -> u64
    requires { n ≤ number_digits }
    ensures { result ≡ 10 ^ n }
{
    POWERS[n]
}

// the last k decimal digits of n, zeros in front, at a place
pub fn digits(n: u64, k: usize, out: &mut [u8], at: usize)
    requires { at + k ≤ length out.old }
    ensures { out.new ≡ take at out.old ++ digits k n ++ drop (at + k) out.old }
{
    let mut rest = n;
    // An index is kept here: of what is written through `iter_mut` a proof knows the length alone.
    for i in (0..k).rev() {
        out[at + i] = b'0' + (rest % 10) as u8;
        rest /= 10;
    }
}

// how many digits n has without leading zeros, one at least
#[tactic(auto, using(crate::proofs::WritingLaws::widened))]
fn width(n: u64) -> usize
    requires { n ≤ number_most }
    ensures { decimal n ≡ digits result n }
{
    (1..DIGITS).find(|&k| n < power(k)).unwrap_or(DIGITS)
}

// the decimal text of a size, at a place
#[tactic(auto, using(crate::proofs::WritingLaws::placed))]
pub fn decimal(n: u64, out: &mut [u8], at: usize) -> usize
    requires { (n ≤ number_most) × (at + number_digits ≤ length out.old) }
    ensures value { result ≡ length (decimal n) }
    ensures out_after { out.new ≡ take at out.old ++ decimal n ++ drop (at + length (decimal n)) out.old }
{
    let k = width(n);
    digits(n, k, out, at);
    k
}

// "Results have no leading zeros and no `+`.": a number's text, at the front
pub(crate) fn text(x: Number, out: &mut [u8]) -> usize
    requires { (x.size ≤ number_most) × (number_digits + 1 ≤ length out.old) }
    ensures value { result ≡ length (number_text (whole x)) }
    ensures out_after { out.new ≡ number_text (whole x) ++ drop (length (number_text (whole x))) out.old }
{
    let size = x.size;
    if x.negative {
        out[0] = b'-';
        return decimal(size, out, 1) + 1;
    }
    decimal(size, out, 0)
}
