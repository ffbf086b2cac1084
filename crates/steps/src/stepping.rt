// One step of an F code: "A step is one F elm" (document 01, "Steps"). The element given to the code stands in its own slot.
ghost use Rattle.std.specs.Prelude.{◌+◌, ◌≤◌, ◌<◌, length};
ghost use Rattle.paper.specs.Sizes.{entry_most, record_most, stack_most};
ghost use Rattle.paper.specs.Refusals.{given};
ghost use Rattle.paper.specs.Checking.{Room};
ghost use Rattle.paper.specs.Steps.{charged};
ghost use Rattle.codes.specs.Meaning.{operator_of, conversion_of, elm_of};
ghost use Rattle.codes.specs.Counting.{kind_of};
ghost use Rattle.stack.specs.Slots.{entry_at, Lent};
ghost use Rattle.stack.specs.Charging.{Puts, taken_one, taken_two, taken_three};
ghost use Rattle.giving.specs.Bounds.{ConversionWithin};
ghost use Rattle.steps.specs.Bounds.{OperandWithin, OperatorWithin, ElmWithin};
ghost use Rattle.steps.specs.Stepping.{ElmCharges, binary_on, substring_on, converted_on};

use crate::{Position, loading};
use codes::{Conversion, Elm, Operand, Operator};
use paper::Refusal;
use stack::slots::{self, Slots};
use stack::{Step, charging};

// "An attribute load costs 1 + record length + element length"; a literal or LPV takes none.
fn push<'a>(
    item: &'a [u8],
    code: &'a [u8],
    o: Operand,
    at: Position,
    held: usize,
    left: u64,
    slots: &mut Slots,
) -> Result<Step, Refusal>
    requires { (held < stack_most) × (length item.now ≤ record_most)
        × OperandWithin code.now o × Room (elm_of code.now (Elm.Push o)) held }
    ensures { ElmCharges left item.now code.now (Elm.Push o) at held result
        slots.old.scratch.now slots.old.lens slots.new.scratch.now slots.new.lens }
{
    match o {
        Operand::Attribute { .. } => {
            let part = loading::operand(item, code, o, at);
            charging::charge_operand(part, item.len() as u64, left, slots, held)
        }
        Operand::Literal { .. } => {
            let part = loading::operand(item, code, o, at);
            charging::charge_operand(part, 0, left, slots, held)
        }
        Operand::Previous => charging::charge_copy(slots::ELEMENT, 0, left, slots, held),
    }
}

// Two entries taken, one put: the second entry is in slot k, the top in slot k + 1.
fn binary(
    o: Operator,
    left: u64,
    slots: &mut Slots,
    work: &mut [u8],
    k: usize,
) -> Result<Step, Refusal>
    requires { (k + 1 < stack_most) × OperatorWithin o × (entry_most ≤ length work.old) }
    ensures { Puts left (taken_two slots.old.scratch.now slots.old.lens k)
        (binary_on (operator_of o) slots.old.scratch.now slots.old.lens k) k result
        slots.old.scratch.now slots.old.lens slots.new.scratch.now slots.new.lens }
{
    let second = slots.entry(k);
    let top = slots.entry(k + 1);
    let taken = second.len() as u64 + top.len() as u64;
    let answer = numbers::entries::binary(o, second, top, work);
    charging::charge_given(answer, taken, left, work, slots, k)
}

// Three entries taken, one put: the third entry is in slot k, the top in slot k + 2.
fn substring(left: u64, slots: &mut Slots, work: &mut [u8], k: usize) -> Result<Step, Refusal>
    requires { (k + 2 < stack_most) × (entry_most ≤ length work.old) }
    ensures { Puts left (taken_three slots.old.scratch.now slots.old.lens k)
        (substring_on slots.old.scratch.now slots.old.lens k) k result
        slots.old.scratch.now slots.old.lens slots.new.scratch.now slots.new.lens }
{
    let third = slots.entry(k);
    let second = slots.entry(k + 1);
    let top = slots.entry(k + 2);
    let taken = third.len() as u64 + second.len() as u64 + top.len() as u64;
    let answer = numbers::entries::substring(third, second, top, work);
    charging::charge_given(answer, taken, left, work, slots, k)
}

// One entry taken, one put, in slot k.
fn convert(
    conversion: Conversion,
    code: &[u8],
    left: u64,
    slots: &mut Slots,
    work: &mut [u8],
    k: usize,
) -> Result<Step, Refusal>
    requires { (k < stack_most) × ConversionWithin code.now conversion × (entry_most ≤ length work.old) }
    ensures { Puts left (charged (kind_of conversion) 0 (taken_one slots.old.scratch.now slots.old.lens k))
        (converted_on (conversion_of code.now conversion) slots.old.scratch.now slots.old.lens k) k result
        slots.old.scratch.now slots.old.lens slots.new.scratch.now slots.new.lens }
{
    let top = slots.entry(k);
    let taken = giving::charged(conversion, top.len() as u64);
    let answer = giving::give(conversion, code, top, work);
    charging::charge_given(answer, taken, left, work, slots, k)
}

// "`P` takes one entry and puts two": the top, in slot k, once more above it.
fn duplicate(left: u64, slots: &mut Slots, k: usize) -> Result<Step, Refusal>
    requires { k + 1 < stack_most }
    ensures { Puts left (taken_one slots.old.scratch.now slots.old.lens k + taken_one slots.old.scratch.now slots.old.lens k)
        (given (entry_at slots.old.scratch.now slots.old.lens k)) (k + 1) result
        slots.old.scratch.now slots.old.lens slots.new.scratch.now slots.new.lens }
{
    let top = slots.lens[k] as u64;
    charging::charge_copy(k, top + top, left, slots, k + 1)
}

// One elm on the first `held` slots.
pub fn step<'a>(
    item: &'a [u8],
    code: &'a [u8],
    elm: Elm,
    at: Position,
    held: usize,
    left: u64,
    slots: &mut Slots,
    work: &mut [u8],
) -> Result<Step, Refusal>
    requires { Lent item.now work.old
        × ElmWithin code.now elm × (held ≤ stack_most) × Room (elm_of code.now elm) held }
    ensures { ElmCharges left item.now code.now elm at held result
        slots.old.scratch.now slots.old.lens slots.new.scratch.now slots.new.lens }
{
    match elm {
        Elm::Push(o) => push(item, code, o, at, held, left, slots),
        Elm::Binary(o) => binary(o, left, slots, work, held - 2),
        Elm::Substring => substring(left, slots, work, held - 3),
        Elm::Exchange => charging::charge_exchange(left, slots, held - 2),
        Elm::Duplicate => duplicate(left, slots, held - 1),
        Elm::Convert(c) => convert(c, code, left, slots, work, held - 1),
    }
}
