// The elements of an address (document 01, "What each code gives" and "Steps"): each through all codes, the marks between them kept.
// They are walked once from left to right, and each answer goes straight to the lent output.
// Only `convert` calls this: it lends an accepted string, the bytes that a lawful address reads, and what the machine asks.
#![tactic(auto)]

ghost use Rattle.std.specs.Prelude.{[], ◌∷◌, ◌≡◌, ◌+◌, ◌^◌, ◌≤◌, ◌<◌, length};
ghost use Rattle.paper.specs.Sizes.{record_most, position_most};
ghost use Rattle.stack.specs.Slots.{Lent};
ghost use Rattle.machine.specs.Plans.{plan_of};
ghost use Rattle.machine.specs.Runs.{Counted, Runs};
ghost use Rattle.elements.specs.Gather.{gathered_in};
ghost use Rattle.elements.specs.Running.{Accepts, element_outcome, elements_outcome, passed, Adds, Walks};

use codes::Conversion;
use machine::{Meter, Standing, Stopped};
use paper::{Limit, Mark, Refusal};
use stack::slots::{ELEMENT, Slots};
use steps::Position;

// What the walk over the elements comes to: the steps and the answer's length.
#[derive(Clone, Copy)]
pub struct Walked {
    pub steps: u64,
    pub length: usize,
}

// Bytes of the answer behind the `so_far` bytes of it, where the output still has room; the answer's length with them.
#[tactic(auto, unfolding(crate::specs::Gather::gathered_in))]
fn gather(src: &[u8], out: &mut [u8], so_far: usize) -> usize
    requires { so_far + length src.now < 2 ^ 63 }
    ensures value { result ≡ so_far + length src.now }
    ensures out_after { out.new ≡ gathered_in out.old so_far src.now }
{
    let end = so_far + src.len();
    if end <= out.len() {
        lent::copy_in(src, out, so_far);
    }
    end
}

// A mark behind the `so_far` bytes of the answer, where the output still has room; the answer's length with it.
// Put and not gathered as a part of the text, which is a loop for one byte.
#[tactic(auto, unfolding(crate::specs::Gather::gathered_in), using(lent::proofs::Laws::over_one))]
fn put_mark(mark: u8, out: &mut [u8], so_far: usize) -> usize
    requires { so_far + 1 < 2 ^ 63 }
    ensures value { result ≡ so_far + 1 }
    ensures out_after { out.new ≡ gathered_in out.old so_far (mark ∷ []) }
{
    if so_far < out.len() {
        out[so_far] = mark;
    }
    so_far + 1
}

// One element through all codes: 9 before its first step where it is over-long.
fn element<'a>(
    item: &'a [u8],
    code: &'a [u8],
    plan: Option<Conversion>,
    text: &[u8],
    here: Standing,
    slots: &mut Slots,
    work: &mut [u8],
) -> Result<u64, Stopped>
    requires { Lent item.now work.old × Accepts code.now × Counted here.meter × (plan ≡ plan_of code.now) }
    ensures { Runs (element_outcome item.now code.now here.place here.meter text.now)
        result slots.new.scratch.now slots.new.lens }
{
    if Limit::ENTRY.most < text.len() {
        return Err(Stopped {
            refusal: Refusal::OverLongEntry,
            steps: here.meter.steps,
        });
    }
    slots.put(text, ELEMENT);
    machine::running::run_codes(item, code, plan, here, slots, work)
}

// One element through all codes, its answer gathered in the output.
fn add<'a>(
    item: &'a [u8],
    code: &'a [u8],
    plan: Option<Conversion>,
    text: &[u8],
    here: Standing,
    so_far: usize,
    out: &mut [u8],
    slots: &mut Slots,
    work: &mut [u8],
) -> Result<Walked, Stopped>
    requires lent { Lent item.now work.old × Accepts code.now × Counted here.meter × (so_far < 2 ^ 62) }
    requires plan_value { plan ≡ plan_of code.now }
    ensures { Adds (element_outcome item.now code.now here.place here.meter text.now)
        so_far result out.old out.new }
{
    let steps = element(item, code, plan, text, here, slots, work)?;
    let answer = slots.entry(ELEMENT);
    let length = gather(answer, out, so_far);
    Ok(Walked { steps, length })
}

// The position behind a mark.
#[tactic(auto, unfolding(crate::specs::Running::passed))]
fn pass(mark: u8, at: Position) -> Position
    requires { (at.v < 2 ^ 62) × (at.s < 2 ^ 62) }
    ensures { result ≡ passed mark at.v at.s }
{
    let v = at.v;
    let s = at.s;
    if mark == Mark::VALUE.byte {
        Position { v: v + 1, s: 1 }
    } else {
        Position { v, s: s + 1 }
    }
}

// All elements of the bytes that an address reads, once from left to right. The mark behind an element is put and tells the next position:
// `split` drops it, and `split_inclusive` has no empty element behind a last one, so the walk goes by places.
pub fn walk<'a>(
    item: &'a [u8],
    code: &'a [u8],
    text: &[u8],
    from: Position,
    budget: u64,
    out: &mut [u8],
    slots: &mut Slots,
    work: &mut [u8],
) -> Result<Walked, Stopped>
    requires lent { Lent item.now work.old × Accepts code.now × (length text.now ≤ record_most) }
    requires v_le_position_most { (from.v ≤ position_most) × (from.s ≤ position_most) }
    ensures { Walks (elements_outcome item.now code.now from budget text.now) result out.old out.new }
{
    let plan = machine::running::plan(code);
    let mut at = 0;
    let mut place = from;
    let mut steps = 0;
    let mut so_far = 0;
    loop {
        let end = lent::next_within(text, at, text.len(), Mark::SUBVALUE.byte, Mark::VALUE.byte);
        let here = Standing {
            place,
            meter: Meter { budget, steps },
        };
        let element = &text[at..end];
        let added = add(item, code, plan, element, here, so_far, out, slots, work)?;
        if text.len() <= end {
            return Ok(added);
        }
        let mark = text[end];
        so_far = put_mark(mark, out, added.length);
        steps = added.steps;
        place = pass(mark, place);
        at = end + 1;
    }
}
