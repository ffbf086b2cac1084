// The seven calls for hosts in other languages, through plain numbers and byte slices: document 01's five, its ceiling, and document 02's A code.
// Each returns the refusal's number, 0 for none; what else it gives goes behind the references, which it always writes.
// They take any input and have no `requires`; the work is done by the crates below, whose answers are turned into numbers here.
#![tactic(auto)]

ghost use Rattle.std.specs.Prelude.{◌≡◌};
ghost use Rattle.paper.specs.Refusals.{refusal_of};
ghost use Rattle.paper.specs.Answers.{told};
ghost use Rattle.paper.specs.Records.{find};
ghost use Rattle.paper.specs.Checking.{check, report};
ghost use Rattle.paper.specs.TypedDates.{typed_date};
ghost use Rattle.convert.specs.Ceiling.{ceiling_of};
ghost use Rattle.sundewfrill.specs.Numbers.{found_number, start_number, part_length, answer_length, ceiling_number, sign_number, size_number};
ghost use Rattle.sundewfrill.specs.Calls.{replaced, converted, displayed, replaced_output, converted_output, converted_scratch, displayed_output};

use judging::Counts;
use numbers::Number;
use paper::{Address, Refusal};
use records::Span;

// The refusal's number, 0 for none.
fn number<T: Copy>(answer: Result<T, Refusal>) -> u64
    ensures { result ≡ refusal_of (told answer) }
{
    match answer {
        Ok(_) => 0,
        Err(refusal) => refusal.number(),
    }
}

// "Finding tries 1, 2, 3, 4." "The answer of finding is "found" or "missing""; nothing is given of a part that is not there.
#[tactic(auto, unfolding(paper::specs::Records::extract))]
#[unsafe(no_mangle)]
pub extern "C" fn sundewfrill_find(
    item: &[u8],
    a: u64,
    v: u64,
    s: u64,
    found: &mut u64,
    start: &mut u64,
    length: &mut u64,
) -> u64
    ensures value { result ≡ refusal_of (find item.now a v s) }
    ensures found_after { found.new ≡ found_number (find item.now a v s) }
    ensures start_after { start.new ≡ start_number (find item.now a v s) }
    ensures length_after { length.new ≡ part_length (find item.now a v s) }
{
    let told = records::find(item, Address { a, v, s });
    let part = told.unwrap_or(None);
    *found = part.is_some() as u64;
    let span = part.unwrap_or(Span { start: 0, len: 0 });
    *start = span.start as u64;
    *length = span.len as u64;
    number(told)
}

// "Replacing: 1, 2, 3, 4, 9, 17, then 3 and 1 for what would result, then 16."
#[unsafe(no_mangle)]
pub extern "C" fn sundewfrill_replace(
    item: &[u8],
    new: &[u8],
    output: &mut [u8],
    a: u64,
    v: u64,
    s: u64,
    length: &mut u64,
) -> u64
    ensures value { result ≡ refusal_of (replaced item.now new.now output.old a v s) }
    ensures length_after { length.new ≡ answer_length (replaced item.now new.now output.old a v s) }
    ensures output_after { output.new ≡ replaced_output item.now new.now output.old a v s }
{
    let written = records::replace(item, Address { a, v, s }, new, output);
    *length = written.unwrap_or(0) as u64;
    number(written)
}

// "Checking: 5 (with code number 0), then the first bad code"; of what is accepted A, B, P and T
#[tactic(auto, unfolding(judging::specs::Verdicts::report_in))]
#[unsafe(no_mangle)]
pub extern "C" fn sundewfrill_check(
    code: &[u8],
    code_number: &mut u64,
    loads: &mut u64,
    others: &mut u64,
    patterns: &mut u64,
    tests: &mut u64,
) -> u64
    ensures value { result ≡ (report (check code.now)).refusal }
    ensures code_number_after { code_number.new ≡ (report (check code.now)).code_number }
    ensures loads_after { loads.new ≡ (report (check code.now)).steps.loads }
    ensures others_after { others.new ≡ (report (check code.now)).steps.others }
    ensures patterns_after { patterns.new ≡ (report (check code.now)).steps.patterns }
    ensures tests_after { tests.new ≡ (report (check code.now)).steps.tests }
{
    let told = judging::check(code);
    let counts = told.unwrap_or(Counts::NONE);
    *code_number = told.err().map_or(0, |bad| bad.code);
    *loads = counts.loads;
    *others = counts.others;
    *patterns = counts.patterns;
    *tests = counts.tests;
    told.err().map_or(0, |bad| bad.refusal.number())
}

// "Ceiling: with A attribute loads and B other steps in the string, record length R and m elements": 1 to 7 and 18 as converting tries them.
#[unsafe(no_mangle)]
pub extern "C" fn sundewfrill_ceiling(
    item: &[u8],
    code: &[u8],
    a: u64,
    v: u64,
    s: u64,
    ceiling: &mut u64,
) -> u64
    ensures value { result ≡ refusal_of (ceiling_of item.now code.now a v s) }
    ensures ceiling_after { ceiling.new ≡ ceiling_number (ceiling_of item.now code.now a v s) }
{
    let told = convert::ceiling(item, code, Address { a, v, s });
    *ceiling = told.unwrap_or(0);
    number(told)
}

// "Converting: 1, 2, 3, 4, 5, 6 or 7, 8, then the run, then 16.", and 18 where 6 and 7 stand
#[unsafe(no_mangle)]
pub extern "C" fn sundewfrill_convert<'a>(
    item: &'a [u8],
    code: &'a [u8],
    output: &mut [u8],
    scratch: &mut [u8],
    a: u64,
    v: u64,
    s: u64,
    budget: u64,
    steps: &mut u64,
    length: &mut u64,
) -> u64
    ensures value { result ≡ refusal_of (converted item.now code.now output.old scratch.old a v s budget).answer }
    ensures steps_after { steps.new ≡ (converted item.now code.now output.old scratch.old a v s budget).steps }
    ensures length_after { length.new ≡ answer_length
        (converted item.now code.now output.old scratch.old a v s budget).answer }
    ensures output_after { output.new ≡ converted_output item.now code.now output.old scratch.old a v s budget }
    ensures scratch_after { scratch.new ≡ converted_scratch scratch.old }
{
    let told = convert::convert(item, code, Address { a, v, s }, budget, output, scratch);
    *steps = told.steps;
    *length = told.answer.unwrap_or(0) as u64;
    number(told.answer)
}

// "A typed date: 5, then 6 if the string is not exactly one D code, then 12."
#[unsafe(no_mangle)]
pub extern "C" fn sundewfrill_typed_date(
    code: &[u8],
    text: &[u8],
    negative: &mut u64,
    size: &mut u64,
) -> u64
    ensures value { result ≡ refusal_of (typed_date code.now text.now) }
    ensures negative_after { negative.new ≡ sign_number (typed_date code.now text.now) }
    ensures size_after { size.new ≡ size_number (typed_date code.now text.now) }
{
    let told = typed::typed_date(code, text);
    let day = told.unwrap_or(Number {
        negative: false,
        size: 0,
    });
    *negative = day.negative as u64;
    *size = day.size;
    number(told)
}

// "5 for an A code over 512, 6 if not an expression, 5 if the F text would pass 512 bytes, 7 as the F text earns it, 16, in that order"
#[unsafe(no_mangle)]
pub extern "C" fn sundewfrill_algebra(code: &[u8], output: &mut [u8], length: &mut u64) -> u64
    ensures value { result ≡ refusal_of (displayed code.now output.old) }
    ensures length_after { length.new ≡ answer_length (displayed code.now output.old) }
    ensures output_after { output.new ≡ displayed_output code.now output.old }
{
    let shown = algebra::show(code, output);
    *length = shown.unwrap_or(0) as u64;
    number(shown)
}
