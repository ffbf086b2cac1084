// Document 01, "The code grammar" (refusal 7) and "Steps" (A and B), and document 02, L1 and L5: the shape of an elm, and what the elms of an F code come to.
ghost use Rattle.std.specs.Prelude.{◌≡◌, ◌+◌, ◌≤◌};
ghost use Rattle.std.proofs.Common.{Fits};
ghost use Rattle.std.specs.Int.{w64};
ghost use Rattle.paper.specs.Bytes.{Bytes};
ghost use Rattle.paper.specs.Sizes.{stack_most};
ghost use Rattle.paper.specs.Answers.{told, length_in};
ghost use Rattle.paper.specs.Checking.{step_counts, shape};
ghost use Rattle.codes.specs.Meaning.{elm_of};
ghost use Rattle.codes.specs.Counting.{kind_of, elm_kind_of, ElmCounted};
ghost use Rattle.judging.specs.Tallies.{
  counts_in,
  counts_of,
  kind_in,
  step_kind,
  shape_in,
  added,
  steps,
  entries_after,
  onward,
  tally_after,
  judgement_of,
};

use crate::{Counts, Kind, Shape, Tally};
use codes::{Conversion, Elm, Operand};
use paper::{Limit, Refusal};
use std::ops::Add;

const STACK: u64 = Limit::STACK.most as u64;

// "A attribute loads and B other steps", and P codes with their tests: a step is one of these.
#[tactic(auto, unfolding(paper::specs::Checking::step_counts))]
pub(crate) fn one_step(kind: Kind) -> Counts
    ensures { result ≡ counts_in (step_counts (step_kind kind)) }
{
    match kind {
        Kind::Loading => Counts {
            loads: 1,
            ..Counts::NONE
        },
        Kind::Testing(tests) => Counts {
            patterns: 1,
            tests,
            ..Counts::NONE
        },
        Kind::Other => Counts {
            others: 1,
            ..Counts::NONE
        },
    }
}

impl Add for Counts {
    type Output = Counts;

    ghost can_add = { λ x y. Fits w64 (steps x + steps y) };

    ghost add_gives = { λ x y r. r ≡ added x (counts_of y) };

    #[tactic(auto, unfolding(crate::specs::Tallies::added, crate::specs::Tallies::steps, paper::specs::Checking::together))]
    fn add(self, more: Counts) -> Counts {
        Counts {
            loads: self.loads + more.loads,
            others: self.others + more.others,
            patterns: self.patterns + more.patterns,
            tests: self.tests + more.tests,
        }
    }
}

// "With T tests in the code": what the step of a code other than F is counted as.
#[tactic(auto, unfolding(codes::specs::Counting::kind_of))]
pub(crate) fn conversion_kind(conversion: Conversion) -> Kind
    ensures { result ≡ kind_in (kind_of conversion) }
{
    match conversion {
        Conversion::Patterns { tests, .. } => Kind::Testing(tests),
        _ => Kind::Other,
    }
}

// What the step of an elm is counted as.
#[tactic(auto, unfolding(codes::specs::Counting::elm_kind_of))]
fn kind(elm: Elm) -> Kind
    ensures { result ≡ kind_in (elm_kind_of elm) }
{
    match elm {
        Elm::Push(Operand::Attribute { .. }) => Kind::Loading,
        Elm::Convert(conversion) => conversion_kind(conversion),
        _ => Kind::Other,
    }
}

// "`P` takes one entry .., `_` takes .. two, a literal or LPV takes none"
#[tactic(auto, unfolding(codes::specs::Meaning::elm_of, codes::specs::Meaning::operand_of, paper::specs::Checking::shape))]
fn takes(elm: Elm) -> u64
    ensures { (string : Bytes) → result ≡ (shape (elm_of string elm)).takes }
{
    match elm {
        Elm::Push(_) => 0,
        Elm::Binary(_) => 2,
        Elm::Substring => 3,
        Elm::Exchange => 2,
        Elm::Duplicate => 1,
        Elm::Convert(_) => 1,
    }
}

// "`P` .. puts two, `_` .. puts two"
#[tactic(auto, unfolding(codes::specs::Meaning::elm_of, codes::specs::Meaning::operand_of, paper::specs::Checking::shape))]
fn puts(elm: Elm) -> u64
    ensures { (string : Bytes) → result ≡ (shape (elm_of string elm)).puts }
{
    match elm {
        Elm::Push(_) => 1,
        Elm::Binary(_) => 1,
        Elm::Substring => 1,
        Elm::Exchange => 2,
        Elm::Duplicate => 2,
        Elm::Convert(_) => 1,
    }
}

// The shape of an elm. A match of constants for the entries taken and for those put is compiled to a look-up, one match for all fields to a jump.
fn shape(elm: Elm) -> Shape
    ensures value { (string : Bytes) → ElmCounted string elm → result ≡ shape_in (shape (elm_of string elm)) }
    ensures puts_bound { (result.puts ≤ 2) × (result.kind ≡ kind_in (elm_kind_of elm)) }
{
    let kind = kind(elm);
    Shape {
        takes: takes(elm),
        puts: puts(elm),
        kind,
    }
}

// "takes more entries than are there, or would hold 17": refusal 7, and it stays; or the entries after an elm.
#[tactic(auto, unfolding(crate::specs::Tallies::entries_after, crate::specs::Tallies::room))]
fn entries(shape: Shape, held: Result<u64, Refusal>) -> Result<u64, Refusal>
    requires { (length_in held ≤ stack_most) × (shape.puts ≤ 2) }
    ensures { result ≡ onward held (entries_after shape) }
{
    let held = held?;
    if held < shape.takes {
        return Err(Refusal::StackFault);
    }
    let after = held - shape.takes + shape.puts;
    if STACK < after {
        return Err(Refusal::StackFault);
    }
    Ok(after)
}

// One elm more.
pub(crate) fn tally_after(tally: Tally, elm: Elm) -> Tally
    requires { (length_in tally.held ≤ stack_most) × Fits w64 (steps tally.counts + steps (counts_in (step_counts (elm_kind_of elm)))) }
    ensures { (string : Bytes) → ElmCounted string elm → result ≡ tally_after (elm_of string elm) tally }
{
    let shape = shape(elm);
    let held = entries(shape, tally.held);
    let counts = tally.counts + one_step(shape.kind);
    Tally { held, counts }
}

// A whole F code: its faults in their order, 7 and then "an F code must end with exactly one entry"; and then its steps.
#[tactic(auto, unfolding(crate::specs::Tallies::judgement_of))]
pub(crate) fn judgement(tally: Tally) -> Result<Counts, Refusal>
    ensures { told result ≡ judgement_of tally }
{
    let held = tally.held?;
    if held != 1 {
        return Err(Refusal::LeftOverEntries);
    }
    Ok(tally.counts)
}
