// What F's elms give that take entries and reckon: the operators on two of them, and `[]` on three.
ghost use Rattle.std.specs.Prelude.{◌≡◌, [], ◌∷◌, ◌≤◌, length, take, drop, if◌then◌else◌};
ghost use Rattle.paper.specs.Sizes.{number_digits, entry_most};
ghost use Rattle.paper.specs.Refusals.{given};
ghost use Rattle.paper.specs.Answers.{told, sized, written};
ghost use Rattle.paper.specs.Numbers.{concatenate, relate, binary_gives, skipped, taken, substring_gives};
ghost use Rattle.paper.specs.Steps.{limited};
ghost use Rattle.codes.specs.Meaning.{relation_of, arithmetic_of, operator_of};
ghost use Rattle.numbers.specs.Forms.{whole};
ghost use Rattle.numbers.specs.Operators.{scales, scale_of};

use crate::{Number, comparing, reckoning, writing};
use codes::{Arithmetic, Operator, Relation};
use paper::{Limit, Refusal};

// What the second entry and the top give, at the front of `out`.
#[tactic(auto, unfolding(codes::specs::Meaning::operator_of))]
pub fn binary(op: Operator, second: &[u8], top: &[u8], out: &mut [u8]) -> Result<usize, Refusal>
    requires { (scale_of op ≤ number_digits) × (entry_most ≤ length out.old) }
    ensures value { told result ≡ sized (limited entry_most (binary_gives (operator_of op) second.now top.now)) }
    ensures out_after { out.new
        ≡ written out.old (limited entry_most (binary_gives (operator_of op) second.now top.now)) }
{
    match op {
        Operator::Arithmetic(a) => compute(a, second, top, out),
        Operator::Concatenate => concatenate(second, top, out),
        Operator::Relate(r) => relate(r, second, top, out),
    }
}

// A number's text, or the refusal of its reckoning.
fn compute(op: Arithmetic, second: &[u8], top: &[u8], out: &mut [u8]) -> Result<usize, Refusal>
    requires { (scales op ≤ number_digits) × (entry_most ≤ length out.old) }
    ensures value { told result ≡ sized (limited entry_most (binary_gives (arithmetic_of op) second.now top.now)) }
    ensures out_after { out.new
        ≡ written out.old (limited entry_most (binary_gives (arithmetic_of op) second.now top.now)) }
{
    let x = reckoning::calculate(op, second, top)?;
    Ok(writing::text(x, out))
}

// "`:` puts top after second."
fn concatenate(second: &[u8], top: &[u8], out: &mut [u8]) -> Result<usize, Refusal>
    requires { entry_most ≤ length out.old }
    ensures value { told result ≡ sized (limited entry_most (binary_gives concatenate second.now top.now)) }
    ensures out_after { out.new ≡ written out.old (limited entry_most (binary_gives concatenate second.now top.now)) }
{
    let n = second.len();
    let size = n + top.len();
    if Limit::ENTRY.most < size {
        return Err(Refusal::OverLongEntry);
    }
    lent::copy_in(second, out, 0);
    lent::copy_in(top, out, n);
    Ok(size)
}

// 1 where the relation holds, else 0.
fn relate(relation: Relation, second: &[u8], top: &[u8], out: &mut [u8]) -> Result<usize, Refusal>
    requires { entry_most ≤ length out.old }
    ensures value { told result ≡ sized (limited entry_most (binary_gives (relate (relation_of relation)) second.now top.now)) }
    ensures out_after { out.new
        ≡ written out.old (limited entry_most (binary_gives (relate (relation_of relation)) second.now top.now)) }
{
    let order = comparing::compare(second, top)?;
    out[0] = truth(comparing::holds(relation, order));
    Ok(1)
}

fn truth(holds: bool) -> u8
    ensures { result ∷ [] ≡ if holds then 49 ∷ [] else 48 ∷ [] }
{
    b'0' + u8::from(holds)
}

// "`[]`: third entry, start in second (below 1 counts as 1), length in top (below 0 counts as 0)", at the front of `out`.
pub fn substring(third: &[u8], second: &[u8], top: &[u8], out: &mut [u8]) -> Result<usize, Refusal>
    requires { entry_most ≤ length out.old }
    ensures value { told result ≡ sized (limited entry_most (substring_gives third.now second.now top.now)) }
    ensures out_after { out.new
        ≡ written out.old (limited entry_most (substring_gives third.now second.now top.now)) }
{
    let start = reckoning::operand(second)?;
    let count = reckoning::operand(top)?;
    cut(third, start, count, out)
}

// From a start as many bytes as a length says, fewer if the entry ends.
fn cut(third: &[u8], start: Number, count: Number, out: &mut [u8]) -> Result<usize, Refusal>
    requires { entry_most ≤ length out.old }
    ensures value { told result ≡ sized (limited entry_most (given (take (taken (whole count)) (drop (skipped (whole start)) third.now)))) }
    ensures out_after { out.new
        ≡ written out.old (limited entry_most (given (take (taken (whole count)) (drop (skipped (whole start)) third.now)))) }
{
    let length = third.len();
    let from = skipped(start).min(length as u64) as usize;
    let size = taken(count).min((length - from) as u64) as usize;
    if Limit::ENTRY.most < size {
        return Err(Refusal::OverLongEntry);
    }
    let end = from + size;
    lent::copy_in(&third[from..end], out, 0);
    Ok(size)
}

// the bytes before a start
fn skipped(x: Number) -> u64
    ensures { result ≡ skipped (whole x) }
{
    if x.negative {
        0
    } else {
        x.size.saturating_sub(1)
    }
}

// the bytes of a length
fn taken(x: Number) -> u64
    ensures { result ≡ taken (whole x) }
{
    if x.negative { 0 } else { x.size }
}
