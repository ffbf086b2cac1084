// Relations (001, 4.5): as numbers when both have numeric form, else by bytes, a prefix being smaller.
ghost use Rattle.std.specs.Prelude.{◌≡◌};
ghost use Rattle.paper.specs.Answers.{told_by};
ghost use Rattle.paper.specs.Numbers.{below, order_by, compared, holds};
ghost use Rattle.codes.specs.Meaning.{relation_of};
ghost use Rattle.numbers.specs.Forms.{whole};
ghost use Rattle.numbers.specs.Orders.{order_of, numbers_order, bytes_order};

use crate::{Number, reading};
use codes::Relation;
use paper::Refusal;
use std::cmp::Ordering;

// "Relations (001, 4.5) read second against top: as numbers when both have numeric form, else by bytes"
#[tactic(auto, using(crate::proofs::ComparingLaws::by_both))]
pub(crate) fn compare(second: &[u8], top: &[u8]) -> Result<Ordering, Refusal>
    ensures { told_by order_of result ≡ compared second.now top.now }
{
    let Some(left) = reading::form(second) else {
        return Ok(compare_bytes(second, top));
    };
    let Some(right) = reading::form(top) else {
        return Ok(compare_bytes(second, top));
    };
    compare_forms(left, right)
}

// two in numeric form: "out of range is 10 wherever it is read as a number"
#[tactic(auto, unfolding(crate::specs::Orders::numbers_order))]
fn compare_forms(
    left: Result<Number, Refusal>,
    right: Result<Number, Refusal>,
) -> Result<Ordering, Refusal>
    ensures { told_by order_of result ≡ numbers_order (told_by whole left) (told_by whole right) }
{
    Ok(compare_numbers(left?, right?))
}

// Not `impl Ord for Number`: that brings four impls for one call.
#[tactic(auto, unfolding(paper::specs::Numbers::below))]
fn compare_numbers(x: Number, y: Number) -> Ordering
    ensures { order_of result ≡ order_by (below (whole x) (whole y)) (below (whole y) (whole x)) }
{
    match (x.negative, y.negative) {
        (false, false) => x.size.cmp(&y.size),
        (false, true) => Ordering::Greater,
        (true, false) => Ordering::Less,
        (true, true) => y.size.cmp(&x.size),
    }
}

// "else by bytes, a prefix being smaller"
#[tactic(auto, using(crate::proofs::ComparingLaws::bytes_compared))]
fn compare_bytes(second: &[u8], top: &[u8]) -> Ordering
    ensures { order_of result ≡ bytes_order second.now top.now }
{
    second.cmp(top)
}

// whether the relation that is asked holds
#[tactic(auto, unfolding(paper::specs::Numbers::holds, codes::specs::Meaning::relation_of))]
pub(crate) fn holds(relation: Relation, order: Ordering) -> bool
    ensures { result ≡ holds (relation_of relation) (order_of order) }
{
    match relation {
        Relation::Equal => order.is_eq(),
        Relation::Unequal => order.is_ne(),
        Relation::Greater => order.is_gt(),
        Relation::Lesser => order.is_lt(),
        Relation::AtLeast => order.is_ge(),
        Relation::AtMost => order.is_le(),
    }
}
