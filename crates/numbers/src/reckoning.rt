// Arithmetic of F: both entries as numbers, and what two numbers give. Sizes in range never wrap.
ghost use Rattle.std.specs.Prelude.{◌≡◌, ◌*◌, ◌≤◌, ◌<◌, ltb};
ghost use Rattle.paper.specs.Answers.{told_by};
ghost use Rattle.paper.specs.Sizes.{number_digits, number_most};
ghost use Rattle.paper.specs.Numbers.{number, plus, negated, quotient, remainder};
ghost use Rattle.codes.specs.declared.Arithmetic.TheVariants.{Multiply, Divide, Rest, Add, Subtract};
ghost use Rattle.numbers.specs.Forms.{whole};
ghost use Rattle.numbers.specs.Operators.{scales};
ghost use Rattle.numbers.specs.Reckonings.{reckoning, calculation};

use crate::reading::ranged;
use crate::{MOST, Number, reading, writing};
use codes::Arithmetic;
use paper::Refusal;

// "Arithmetic, start and length take other strings, the empty one included, as 0." Compiled into its callers, as the reading of a number is.
#[inline(always)]
#[tactic(auto, unfolding(paper::specs::Numbers::number), using(crate::proofs::ReckoningLaws::read_operand))]
pub(crate) fn operand(s: &[u8]) -> Result<Number, Refusal>
    ensures { told_by whole result ≡ number s.now }
{
    reading::form(s).unwrap_or(Ok(Number::ZERO))
}

// The operations are free functions: each asks something of its sizes, and traits of operators with those requirements are no plainer.
#[tactic(auto, unfolding(paper::specs::Numbers::plus))]
fn plus(x: Number, y: Number) -> Number
    requires { (x.size ≤ number_most) × (y.size ≤ number_most) }
    ensures { whole result ≡ plus (whole x) (whole y) }
{
    if x.negative != y.negative {
        if y.size <= x.size {
            return Number::signed(x.negative, x.size - y.size);
        }
        return Number::signed(y.negative, y.size - x.size);
    }
    Number::signed(x.negative, x.size + y.size)
}

#[tactic(auto, unfolding(paper::specs::Numbers::negated))]
fn negated(x: Number) -> Number
    ensures { whole result ≡ negated (whole x) }
{
    Number::signed(!x.negative, x.size)
}

// "truncated toward zero"
#[tactic(auto, unfolding(paper::specs::Numbers::quotient))]
fn quotient(x: Number, y: Number) -> Number
    requires { 0 < y.size }
    ensures { whole result ≡ quotient (whole x) (whole y) }
{
    Number::signed(x.negative != y.negative, x.size / y.size)
}

// "`R` has the sign of the second entry"
#[tactic(auto, unfolding(paper::specs::Numbers::remainder))]
fn remainder(x: Number, y: Number) -> Number
    requires { 0 < y.size }
    ensures { whole result ≡ remainder (whole x) (whole y) }
{
    Number::signed(x.negative, x.size % y.size)
}

// whether a product is out of range, told without making it
#[tactic(auto, using(crate::proofs::ReckoningLaws::product_passes))]
fn passes(a: u64, b: u64) -> bool
    ensures { result ≡ ltb number_most (a * b) }
{
    if a == 0 {
        return false;
    }
    MOST / a < b
}

#[tactic(auto, unfolding(crate::specs::Reckonings::reckoning, crate::specs::Reckonings::operated))]
fn add(x: Number, y: Number) -> Result<Number, Refusal>
    requires { (x.size ≤ number_most) × (y.size ≤ number_most) }
    ensures { told_by whole result ≡ reckoning Add (whole x) (whole y) }
{
    ranged(plus(x, y))
}

// "`-` is second minus top"
#[tactic(auto, unfolding(crate::specs::Reckonings::reckoning, crate::specs::Reckonings::operated, paper::specs::Numbers::negated))]
fn subtract(x: Number, y: Number) -> Result<Number, Refusal>
    requires { (x.size ≤ number_most) × (y.size ≤ number_most) }
    ensures { told_by whole result ≡ reckoning Subtract (whole x) (whole y) }
{
    ranged(plus(x, negated(y)))
}

// "`*n` divides the product by ten to the n, truncated toward zero; the undivided product must be in range"
fn multiply(n: u64, x: Number, y: Number) -> Result<Number, Refusal>
    requires { (n ≤ number_digits) × (x.size ≤ number_most) × (y.size ≤ number_most) }
    ensures { told_by whole result ≡ reckoning (Multiply n) (whole x) (whole y) }
{
    if passes(x.size, y.size) {
        return Err(Refusal::OutOfRange);
    }
    let product = Number::signed(x.negative != y.negative, x.size * y.size);
    let scale = Number::signed(false, writing::power(n as usize));
    ranged(quotient(product, scale))
}

// "`/` is second by top"; "Range comes before 11."
#[tactic(auto, unfolding(crate::specs::Reckonings::reckoning, crate::specs::Reckonings::operated))]
fn divide(x: Number, y: Number) -> Result<Number, Refusal>
    requires { (x.size ≤ number_most) × (y.size ≤ number_most) }
    ensures { told_by whole result ≡ reckoning Divide (whole x) (whole y) }
{
    if y.size == 0 {
        return Err(Refusal::ZeroDivisor);
    }
    ranged(quotient(x, y))
}

#[tactic(auto, unfolding(crate::specs::Reckonings::reckoning, crate::specs::Reckonings::operated))]
fn rest(x: Number, y: Number) -> Result<Number, Refusal>
    requires { (x.size ≤ number_most) × (y.size ≤ number_most) }
    ensures { told_by whole result ≡ reckoning Rest (whole x) (whole y) }
{
    if y.size == 0 {
        return Err(Refusal::ZeroDivisor);
    }
    ranged(remainder(x, y))
}

// Both entries as numbers, and what they give. "Range comes before 11."
#[tactic(auto, unfolding(crate::specs::Reckonings::calculation), using(crate::proofs::ReckoningLaws::number_small))]
pub(crate) fn calculate(op: Arithmetic, second: &[u8], top: &[u8]) -> Result<Number, Refusal>
    requires { scales op ≤ number_digits }
    ensures { told_by whole result ≡ calculation op second.now top.now }
{
    let x = operand(second)?;
    let y = operand(top)?;
    reckon(op, x, y)
}

// what two numbers in range give
fn reckon(op: Arithmetic, x: Number, y: Number) -> Result<Number, Refusal>
    requires op_bound { scales op ≤ number_digits }
    requires size_le_number_most { (x.size ≤ number_most) × (y.size ≤ number_most) }
    ensures { told_by whole result ≡ reckoning op (whole x) (whole y) }
{
    match op {
        Arithmetic::Multiply(n) => multiply(n, x, y),
        Arithmetic::Divide => divide(x, y),
        Arithmetic::Rest => rest(x, y),
        Arithmetic::Add => add(x, y),
        Arithmetic::Subtract => subtract(x, y),
    }
}
