// The end of a step: its own refusal first, then 15 if its cost is over what is left of the budget, then its effect (document 01, "Steps").
ghost use Rattle.std.specs.Prelude.{◌≡◌, ◌+◌, ◌≤◌, ◌<◌, length};
ghost use Rattle.paper.specs.Sizes.{entry_most, stack_most};
ghost use Rattle.paper.specs.Refusals.{given};
ghost use Rattle.paper.specs.Answers.{length_in};
ghost use Rattle.paper.specs.Steps.{limited};
ghost use Rattle.stack.specs.Slots.{slots as all_slots, entry_at};
ghost use Rattle.stack.specs.Charging.{taken_most, charge_of, handed, exchanging, Charges, Puts};

use crate::Step;
use crate::slots::Slots;
use paper::{Limit, Refusal};

// "Any other step costs 1 + the bytes it takes + the bytes it puts": the one place where a cost is held against what is left of the budget.
#[tactic(auto, unfolding(crate::specs::Charging::charge_of))]
pub fn charge(taken: u64, put: u64, left: u64) -> Result<u64, Refusal>
    requires { (taken ≤ taken_most) × (put ≤ taken_most) }
    ensures { result ≡ charge_of taken put left }
{
    let cost = 1 + taken + put;
    if left < cost {
        return Err(Refusal::OverBudget);
    }
    Ok(cost)
}

// Bytes on top of k entries, by a step that takes so many bytes.
pub(crate) fn charge_entry(
    bytes: &[u8],
    taken: u64,
    left: u64,
    slots: &mut Slots,
    k: usize,
) -> Result<Step, Refusal>
    requires { (k < stack_most) × (length bytes.now ≤ entry_most) × (taken ≤ taken_most) }
    ensures { Puts left taken (given bytes.now) k result
        slots.old.scratch.now slots.old.lens slots.new.scratch.now slots.new.lens }
{
    let cost = charge(taken, bytes.len() as u64, left)?;
    slots.put(bytes, k);
    Ok(Step { cost, held: k + 1 })
}

// An operand: 9 is its own refusal.
pub fn charge_operand(
    bytes: &[u8],
    taken: u64,
    left: u64,
    slots: &mut Slots,
    k: usize,
) -> Result<Step, Refusal>
    requires { (k < stack_most) × (taken ≤ taken_most) }
    ensures { Puts left taken (limited entry_most (given bytes.now)) k result
        slots.old.scratch.now slots.old.lens slots.new.scratch.now slots.new.lens }
{
    if Limit::ENTRY.most < bytes.len() {
        return Err(Refusal::OverLongEntry);
    }
    charge_entry(bytes, taken, left, slots, k)
}

// What a code or an operator gave, in front of the work buffer.
pub fn charge_given(
    answer: Result<usize, Refusal>,
    taken: u64,
    left: u64,
    work: &[u8],
    slots: &mut Slots,
    k: usize,
) -> Result<Step, Refusal>
    requires room { (k < stack_most) × (taken ≤ taken_most) }
    requires answer_bound { (length_in answer ≤ entry_most) × (entry_most ≤ length work.now) }
    ensures { Puts left taken (handed answer work.now) k result
        slots.old.scratch.now slots.old.lens slots.new.scratch.now slots.new.lens }
{
    let n = answer?;
    charge_entry(&work[..n], taken, left, slots, k)
}

// What a slot holds, once more on top: LPV and `P`.
pub fn charge_copy(
    from: usize,
    taken: u64,
    left: u64,
    slots: &mut Slots,
    k: usize,
) -> Result<Step, Refusal>
    requires { (k < stack_most) × (from < all_slots) × (taken ≤ taken_most) }
    ensures { Puts left taken (given (entry_at slots.old.scratch.now slots.old.lens from)) k result
        slots.old.scratch.now slots.old.lens slots.new.scratch.now slots.new.lens }
{
    let cost = charge(taken, slots.lens[from] as u64, left)?;
    slots.copy(from, k);
    Ok(Step { cost, held: k + 1 })
}

// `_`: takes and puts two, on top of k entries.
pub fn charge_exchange(left: u64, slots: &mut Slots, k: usize) -> Result<Step, Refusal>
    requires { k + 1 < stack_most }
    ensures { Charges left (exchanging slots.old.scratch.now slots.old.lens k) result
        slots.old.scratch.now slots.old.lens slots.new.scratch.now slots.new.lens }
{
    let both = slots.lens[k] as u64 + slots.lens[k + 1] as u64;
    let cost = charge(both, both, left)?;
    slots.exchange(k);
    Ok(Step { cost, held: k + 2 })
}
