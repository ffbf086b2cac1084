// One code, and one element through all codes: the steps counted, each within what is left of the budget (document 01, "Steps").
ghost use Rattle.std.specs.Prelude.{◌≡◌, ◌≤◌, length};
ghost use Rattle.paper.specs.Sizes.{code_most, entry_most, value_mark};
ghost use Rattle.paper.specs.Refusals.{given};
ghost use Rattle.paper.specs.Answers.{length_in};
ghost use Rattle.paper.specs.Records.{split};
ghost use Rattle.paper.specs.Checking.{judged, judged_all, check};
ghost use Rattle.grammar.specs.Heads.{elms_from};
ghost use Rattle.giving.specs.Bounds.{ConversionWithin};
ghost use Rattle.stack.specs.Slots.{Lent};
ghost use Rattle.stack.specs.Charging.{taken_most, handed};
ghost use Rattle.machine.specs.Plans.{plan_of};
ghost use Rattle.machine.specs.Runs.{
  Counted,
  metered,
  Runs,
  Stretches,
  elms_outcome,
  function_outcome,
  converting,
  single_outcome,
  code_outcome,
  codes_outcome,
  Stacks,
  JudgedWell,
  Accepted,
};

use crate::{Meter, Standing, Stopped, Stretch};
use codes::Conversion;
use grammar::Head;
use grammar::elms::elm;
use grammar::heads::{code_end, head};
use paper::Refusal;
use stack::charging;
use stack::slots::{ELEMENT, Slots};
use steps::stepping;

// The elms of an F code from a place on, from an empty stack to the one that they leave. Only an elm's reader tells where it ends, so no split can part them.
fn run_elms<'a>(
    item: &'a [u8],
    code: &'a [u8],
    first: usize,
    here: Standing,
    slots: &mut Slots,
    work: &mut [u8],
) -> Result<Stretch, Stopped>
    requires { Lent item.now work.old × (first ≤ length code.now) × Counted here.meter × Stacks (elms_from code.now first) 0
        × (length code.now ≤ code_most) }
    ensures { Stretches (elms_outcome item.now code.now first here.place here.meter slots.old.scratch.now slots.old.lens)
        result slots.new.scratch.now slots.new.lens }
{
    let mut at = first;
    let mut held = 0;
    let mut steps = here.meter.steps;
    loop {
        // the code was accepted: an elm stands there
        let read = elm(code, at).unwrap();
        let left = here.meter.budget - steps;
        let taken = stepping::step(
            item, code, read.value, here.place, held, left, slots, work,
        ).map_err(|refusal| Stopped { refusal, steps })?;
        held = taken.held;
        steps += taken.cost;
        if read.next == code.len() {
            return Ok(Stretch { held, steps });
        }
        at = read.next + 1;
    }
}

// An F code: "F starts with an empty stack.", and "An F code's answer is the top entry."
fn function<'a>(
    item: &'a [u8],
    code: &'a [u8],
    first: usize,
    here: Standing,
    slots: &mut Slots,
    work: &mut [u8],
) -> Result<u64, Stopped>
    requires { Lent item.now work.old × (first ≤ length code.now) × Counted here.meter × Stacks (elms_from code.now first) 0
        × (length code.now ≤ code_most) }
    ensures { Runs (function_outcome item.now code.now first here.place here.meter slots.old.scratch.now slots.old.lens)
        result slots.new.scratch.now slots.new.lens }
{
    let stretch = run_elms(item, code, first, here, slots, work)?;
    slots.copy(stretch.held - 1, ELEMENT);
    Ok(stretch.steps)
}

// Bytes in the element's slot, by a step that takes so many bytes: 15 if its cost is over what is left of the budget.
// Not the end of an elm's step (`stack::charging`): the slot is another, and a run's error has the steps counted before it.
fn charge_element(bytes: &[u8], taken: u64, meter: Meter, slots: &mut Slots) -> Result<u64, Stopped>
    requires { (length bytes.now ≤ entry_most) × (taken ≤ taken_most) × Counted meter }
    ensures { Runs (metered meter (converting taken (given bytes.now))) result slots.new.scratch.now slots.new.lens }
{
    let steps = meter.steps;
    let cost = charging::charge(taken, bytes.len() as u64, meter.budget - steps).map_err(
        |refusal| Stopped { refusal, steps },
    )?;
    slots.put(bytes, ELEMENT);
    Ok(steps + cost)
}

// What the code gave, in front of the work buffer; its own refusal first.
fn charge_code(
    answer: Result<usize, Refusal>,
    taken: u64,
    meter: Meter,
    work: &[u8],
    slots: &mut Slots,
) -> Result<u64, Stopped>
    requires counted { (taken ≤ taken_most) × Counted meter }
    requires answer_bound { (length_in answer ≤ entry_most) × (entry_most ≤ length work.now) }
    ensures { Runs (metered meter (converting taken (handed answer work.now))) result slots.new.scratch.now slots.new.lens }
{
    let steps = meter.steps;
    let n = answer.map_err(|refusal| Stopped { refusal, steps })?;
    charge_element(&work[0..n], taken, meter, slots)
}

// One code other than F, on the element in its slot.
fn single(
    conversion: Conversion,
    code: &[u8],
    meter: Meter,
    slots: &mut Slots,
    work: &mut [u8],
) -> Result<u64, Stopped>
    requires { (entry_most ≤ length work.old) × Counted meter × ConversionWithin code.now conversion }
    ensures { Runs (single_outcome code.now conversion meter slots.old.scratch.now slots.old.lens)
        result slots.new.scratch.now slots.new.lens }
{
    let element = slots.entry(ELEMENT);
    let taken = giving::charged(conversion, element.len() as u64);
    let answer = giving::give(conversion, code, element, work);
    charge_code(answer, taken, meter, &*work, slots)
}

// One code, without the marks around it, on the element in its slot.
fn run_code<'a>(
    item: &'a [u8],
    code: &'a [u8],
    here: Standing,
    slots: &mut Slots,
    work: &mut [u8],
) -> Result<u64, Stopped>
    requires { Lent item.now work.old × Counted here.meter × JudgedWell (judged code.now) × (length code.now ≤ code_most) }
    ensures { Runs (code_outcome item.now (judged code.now) here.place here.meter slots.old.scratch.now slots.old.lens)
        result slots.new.scratch.now slots.new.lens }
{
    // the code was accepted: it has a head
    match head(code).unwrap() {
        Head::Function { first } => function(item, code, first, here, slots, work),
        Head::Single(conversion) => single(conversion, code, here.meter, slots, work),
    }
}

// "Each element goes through the codes in order.": the one code other than F that the string is, read once for all of them; none where it is any other.
pub fn plan(string: &[u8]) -> Option<Conversion>
    ensures { result ≡ plan_of string.now }
{
    match head(string) {
        Ok(Head::Single(conversion)) => {
            (code_end(string, 0) == string.len()).then_some(conversion)
        }
        Ok(Head::Function { first: _ }) => None,
        Err(_) => None,
    }
}

// "Each element goes through the codes in order.": those of a string that has one code at least.
fn run_parts<'a>(
    item: &'a [u8],
    string: &'a [u8],
    here: Standing,
    slots: &mut Slots,
    work: &mut [u8],
) -> Result<u64, Stopped>
    requires { Lent item.now work.old × Counted here.meter × Accepted (judged_all 1 (split value_mark string.now))
        × (length string.now ≤ code_most) }
    ensures { Runs (codes_outcome item.now (judged_all 1 (split value_mark string.now)) here.place here.meter
        slots.old.scratch.now slots.old.lens) result slots.new.scratch.now slots.new.lens }
{
    let mut at = 0;
    let mut steps = here.meter.steps;
    loop {
        let end = code_end(string, at);
        let code = &string[at..end];
        let so_far = Standing {
            meter: Meter {
                steps,
                ..here.meter
            },
            ..here
        };
        let counted = run_code(item, code, so_far, slots, work)?;
        if end == string.len() {
            return Ok(counted);
        }
        steps = counted;
        at = end + 1;
    }
}

// The same by the string's plan: one step where it is a single code.
fn run_planned<'a>(
    item: &'a [u8],
    string: &'a [u8],
    plan: Option<Conversion>,
    here: Standing,
    slots: &mut Slots,
    work: &mut [u8],
) -> Result<u64, Stopped>
    requires lent { Lent item.now work.old × Counted here.meter × (plan ≡ plan_of string.now) }
    requires accepted { Accepted (judged_all 1 (split value_mark string.now)) × (length string.now ≤ code_most) }
    ensures { Runs (codes_outcome item.now (judged_all 1 (split value_mark string.now)) here.place here.meter
        slots.old.scratch.now slots.old.lens) result slots.new.scratch.now slots.new.lens }
{
    match plan {
        Some(conversion) => single(conversion, string, here.meter, slots, work),
        None => run_parts(item, string, here, slots, work),
    }
}

// The element in its slot through all codes of a string that was accepted.
pub fn run_codes<'a>(
    item: &'a [u8],
    string: &'a [u8],
    plan: Option<Conversion>,
    here: Standing,
    slots: &mut Slots,
    work: &mut [u8],
) -> Result<u64, Stopped>
    requires { Lent item.now work.old × Counted here.meter × Accepted (check string.now) × (plan ≡ plan_of string.now) }
    ensures { Runs (codes_outcome item.now (check string.now) here.place here.meter slots.old.scratch.now slots.old.lens)
        result slots.new.scratch.now slots.new.lens }
{
    if string.len() == 0 {
        return Ok(here.meter.steps);
    }
    run_planned(item, string, plan, here, slots, work)
}
