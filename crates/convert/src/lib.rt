// Converting (document 01, "What each code gives" and "Steps"): the refusals in order, the walk over the elements, the buffers in the end.
// `convert` takes any record, code string, address, budget and buffers; it is the definition of crates/paper, byte for byte.
// `ceiling` works out beforehand the most steps that a conversion can take.
#![tactic(auto)]

ghost use Rattle.std.specs.Prelude.{◌≡◌, length};
ghost use Rattle.paper.specs.Refusals.{given};
ghost use Rattle.paper.specs.Answers.{told, told_by, sized};
ghost use Rattle.paper.specs.Converting.{from_one, within_budget, ready, run, output_after, scratch_after, counted_ceiling};
ghost use Rattle.judging.specs.Tallies.{counts_of, steps};
ghost use Rattle.elements.specs.Gather.{walked_in};
ghost use Rattle.elements.specs.Running.{codes_in, Walks};
ghost use Rattle.convert.specs.Marks.{inner_marks};
ghost use Rattle.convert.specs.Ceiling.{Figures, ceiling_of, counted_of};
ghost use Rattle.convert.specs.Finishing.{converted_in, fitted_in, finished_out, converted_into};

use elements::Walked;
use judging::Counts;
use machine::Stopped;
use paper::{Address, Limit, Mark, Refusal};
use stack::slots::Slots;
use steps::Position;

// What converting comes to: the steps reported, and the answer's length or the refusal.
#[derive(Clone, Copy)]
pub struct Converted {
    pub steps: u64,
    pub answer: Result<usize, Refusal>,
}

// What a walk comes to in an output of so many bytes: "then 16".
fn fitted(walked: Result<Walked, Stopped>, room: usize) -> Converted
    ensures { converted_in result ≡ fitted_in room (walked_in walked) }
{
    match walked {
        Ok(Walked { steps, length }) => Converted {
            steps,
            answer: if room < length {
                Err(Refusal::ShortOutput)
            } else {
                Ok(length)
            },
        },
        Err(Stopped { refusal, steps }) => Converted {
            steps,
            answer: Err(refusal),
        },
    }
}

// "that buffer holds the answer and then zeros to its end; on a refusal it is zeros throughout", and so is the scratch after every call.
fn finish(walked: Result<Walked, Stopped>, out: &mut [u8], scratch: &mut [u8]) -> Converted
    ensures value { converted_in result ≡ fitted_in (length out.old) (walked_in walked) }
    ensures out_after { out.new ≡ finished_out out.old (fitted_in (length out.old) (walked_in walked)).answer }
    ensures scratch_after { scratch.new ≡ scratch_after (length scratch.old) }
{
    lent::clear(scratch);
    let converted = fitted(walked, out.len());
    let length = converted.answer.unwrap_or(0);
    let rest = out.len() - length;
    lent::fill(out, length, rest, 0);
    converted
}

// "for the id, and a place named only in part, counting starts at 1"
#[tactic(auto, using(crate::proofs::Stages::from_one_max))]
fn from_one(n: u64) -> u64
    ensures { result ≡ from_one n }
{
    n.max(1)
}

// The run behind the tests before it: the slots and a work buffer are the only locals.
fn run<'a>(
    item: &'a [u8],
    code: &'a [u8],
    at: Address,
    budget: u64,
    out: &mut [u8],
    scratch: &mut [u8],
) -> Result<Walked, Stopped>
    requires { given (codes_in code.now) ≡ ready item.now code.now at.a at.v at.s (length scratch.old) }
    ensures { Walks (within_budget budget 0 (run item.now at.a at.v at.s (codes_in code.now)))
        result out.old out.new }
{
    let mut slots = Slots::over(scratch);
    let mut work = [0u8; Limit::ENTRY.most];
    let text = records::part(item, at);
    let first = Position {
        v: from_one(at.v),
        s: from_one(at.s),
    };
    elements::walk(item, code, text, first, budget, out, &mut slots, &mut work)
}

// What an accepted string counts, behind the refusals 1 to 7 and 18, "1, 2, 3, 4, 5, 6 or 7". Compiled into its callers: the counts need not go through memory.
#[inline(always)]
#[tactic(auto, using(crate::proofs::Stages::place_refused, crate::proofs::Stages::code_counted, crate::proofs::Stages::code_refused))]
fn counted(item: &[u8], code: &[u8], at: Address) -> Result<Counts, Refusal>
    ensures { told result ≡ counted_of item.now code.now at.a at.v at.s }
{
    records::lawful_find(item, at)?;
    judging::check(code).map_err(|bad| bad.refusal)
}

// What converting refuses before its run, "1, 2, 3, 4, 5, 6 or 7, 8", and 18 where 6 and 7 stand.
#[tactic(auto, using(crate::proofs::Stages::refused_before, crate::proofs::Stages::refused_short))]
fn ready(item: &[u8], code: &[u8], at: Address, scratch: usize) -> Result<(), Refusal>
    ensures { told_by (λ u. codes_in code.now) result ≡ ready item.now code.now at.a at.v at.s scratch }
{
    counted(item, code, at)?;
    if scratch < Limit::SCRATCH.most {
        return Err(Refusal::ShortScratch);
    }
    Ok(())
}

// "Converting: 1, 2, 3, 4, 5, 6 or 7, 8, then the run, then 16.", and 18 where 6 and 7 stand; steps are "0 when the run never began".
pub fn convert<'a>(
    item: &'a [u8],
    code: &'a [u8],
    at: Address,
    budget: u64,
    out: &mut [u8],
    scratch: &mut [u8],
) -> Converted
    ensures answer { told result.answer ≡ sized (converted_into item.now code.now at.a at.v at.s budget out.old scratch.old).answer }
    ensures steps { result.steps ≡ (converted_into item.now code.now at.a at.v at.s budget out.old scratch.old).steps }
    ensures out_after { out.new ≡ output_after (length out.old)
        (converted_into item.now code.now at.a at.v at.s budget out.old scratch.old) }
    ensures scratch_after { scratch.new ≡ scratch_after (length scratch.old) }
{
    match ready(item, code, at, scratch.len()) {
        Ok(()) => {
            let walked = run(item, code, at, budget, out, scratch);
            finish(walked, out, scratch)
        }
        Err(refusal) => finish(Err(Stopped { refusal, steps: 0 }), out, scratch),
    }
}

// "1,025" and "4,097": what an attribute load costs at most beside the record's length, and so a test of a P code, and the code beside its tests;
// what any other step costs at most.
const ENTRY_MOST: u64 = 1 + Limit::ENTRY.most as u64;

const OTHER_MOST: u64 = 1 + 4 * Limit::ENTRY.most as u64;

// How many of the bytes part elements: 252 or 253.
fn inner_marks(text: &[u8]) -> u64
    ensures { result ≡ inner_marks text.now }
{
    lent::count(
        text,
        |b| (b == Mark::SUBVALUE.byte) | (b == Mark::VALUE.byte),
    )
}

// "Ceiling: with A attribute loads and B other steps in the string, record length R and m elements, m x (A x (1,025 + R) + B x 4,097)", and of a
// P code "T x 1,025 + 1,025".
fn most_steps(m: u64, counts: Counts, size: u64) -> u64
    requires { Figures m (steps counts) size }
    ensures { result ≡ counted_ceiling (counts_of counts) size m }
{
    let patterns = counts.tests * ENTRY_MOST + counts.patterns * ENTRY_MOST;
    m * (counts.loads * (ENTRY_MOST + size) + counts.others * OTHER_MOST + patterns)
}

// The ceiling of a conversion: refused as that is before its run, but for the scratch, which no ceiling asks for.
#[tactic(auto, using(crate::proofs::Counting::uncapped, crate::proofs::Counting::capped))]
pub fn ceiling(item: &[u8], code: &[u8], at: Address) -> Result<u64, Refusal>
    ensures { told result ≡ ceiling_of item.now code.now at.a at.v at.s }
{
    let counts = counted(item, code, at)?;
    let m = 1 + inner_marks(records::part(item, at));
    Ok(most_steps(m, counts, item.len() as u64))
}
