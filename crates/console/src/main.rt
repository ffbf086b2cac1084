// The program of document 01: line 1 the code, line 2 the address, line 3 the record; out come refusal, steps and answer.
// `answer` goes from the bytes read to the bytes written, and is the paper's `program` on every input.
// `main` only reads and writes; what the system hands over is not part of any statement.
#![tactic(auto)]

ghost use Rattle.std.specs.Prelude.{◌≡◌, map, ◌+◌, ◌≤◌, length};
ghost use Rattle.paper.specs.Sizes.{number_digits, number_most, record_most};
ghost use Rattle.paper.specs.Refusals.{answer_of};
ghost use Rattle.paper.specs.Program.{drawn, program};
ghost use Rattle.lent.specs.Over.{over};
ghost use Rattle.console.specs.Lines.{numbered, shown, told_bytes, responded, line_most};

use cases::field;
use paper::{Limit, Mark, Refusal};
use std::io;
use std::io::Write;
use streams::READS;

// "It converts with budget 1,000,000"
const BUDGET: u64 = 1_000_000;
// The longest line: two numbers and their blanks, an answer and a line end.
const LINE: usize = 2 * (Limit::DIGITS.most + 1) + Limit::RECORD.most + 1;

// An answer with its marks drawn, at a place; the place after it.
fn draw(text: &[u8], line: &mut [u8], at: usize) -> usize
    requires { at + length text.now ≤ length line.old }
    ensures value { result ≡ at + length text.now }
    ensures line_after { line.new ≡ over line.old at (map drawn text.now) }
{
    // An index is kept here: of what is written through `iter_mut` a proof knows the length alone.
    for (j, &byte) in text.iter().enumerate() {
        line[at + j] = Mark::drawn(byte);
    }
    at + text.len()
}

// A number and a blank, at a place; the place after them.
fn number(n: u64, line: &mut [u8], at: usize) -> usize
    requires { (n ≤ number_most) × (at + number_digits + 1 ≤ length line.old) }
    ensures value { result ≡ at + length (numbered n) }
    ensures line_after { line.new ≡ over line.old at (numbered n) }
{
    let end = at + numbers::writing::decimal(n, line, at);
    line[end] = b' ';
    end + 1
}

// "refusal number (0 for none), steps and answer, parted by single blanks, marks drawn", and a line end
fn show(answer: Result<&[u8], Refusal>, steps: u64, line: &mut [u8]) -> usize
    requires { (length (answer_of (told_bytes answer)) ≤ record_most) × (steps ≤ number_most) × (line_most ≤ length line.old) }
    ensures value { result ≡ length (shown (told_bytes answer.entry) steps) }
    ensures line_after { line.new ≡ over line.old 0 (shown (told_bytes answer.entry) steps) }
{
    let refusal = answer.err().map_or(0, Refusal::number);
    let first = number(refusal, line, 0);
    let second = number(steps, line, first);
    let end = draw(answer.unwrap_or(&[]), line, second);
    line[end] = b'\n';
    end + 1
}

// "If line 2 is not three numbers .., it prints `4 0 ` and a line end, before any other refusal"
fn respond<'a>(code: &'a [u8], address: &[u8], item: &'a [u8], line: &mut [u8]) -> usize
    requires { line_most ≤ length line.old }
    ensures value { result ≡ length (responded code.now address.now item.now) }
    ensures line_after { line.new ≡ over line.old 0 (responded code.now address.now item.now) }
{
    let at = match grammar::addresses::address(address) {
        Ok(at) => at,
        Err(refusal) => return show(Err(refusal), 0, line),
    };
    let mut out = [0u8; Limit::RECORD.most];
    let mut scratch = [0u8; Limit::SCRATCH.most];
    let converted = convert::convert(item, code, at, BUDGET, &mut out, &mut scratch);
    match converted.answer {
        Ok(length) => show(Ok(&out[..length]), converted.steps, line),
        Err(refusal) => show(Err(refusal), converted.steps, line),
    }
}

// From the bytes read to the bytes written: "A line ends at byte 10", "missing lines are empty".
#[tactic(auto, unfolding(paper::specs::Program::line, paper::specs::Program::program))]
fn answer(input: &[u8], line: &mut [u8]) -> usize
    requires { line_most ≤ length line.old }
    ensures value { result ≡ length (program input.now) }
    ensures line_after { line.new ≡ over line.old 0 (program input.now) }
{
    let text = lent::front(input, READS);
    let code = field(text, 0, b'\n');
    let address = field(text, 1, b'\n');
    let item = field(text, 2, b'\n');
    respond(code, address, item, line)
}

fn main(rt: HostRuntime) -> io::Result<()> {
    let mut input = [0u8; READS];
    let mut line = [0u8; LINE];
    let read = streams::read_full(&mut rt.stdin(), &mut input)?;
    let length = answer(&input[..read], &mut line);
    io::writer(&rt).write_all(&line[..length])
}
