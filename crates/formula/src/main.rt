// Document 02, L4, at the console: an A code on line 1; out come the refusal, 0 for none, and the F text that the A code stands for.
// `answer` goes from the bytes read to the bytes written, and is `formula` of specs/ on every input.
// `main` only reads and writes; what the system hands over is not part of any statement.
#![tactic(auto)]

ghost use Rattle.std.specs.Prelude.{◌≡◌, ◌≤◌, length};
ghost use Rattle.paper.specs.Sizes.{code_most};
ghost use Rattle.paper.specs.Refusals.{answer_of};
ghost use Rattle.lent.specs.Over.{over};
ghost use Rattle.formula.specs.Formula.{told_bytes, told_of, formula, line_most};

use paper::{Limit, Refusal};
use std::io;
use std::io::Write;
use streams::READS;

// The longest line: a number and its blank, an F text and a line end.
const LINE: usize = Limit::DIGITS.most + 1 + Limit::CODE.most + 1;

// A refusal, 0 for none, and an F text, parted by a blank, and a line end.
fn tell(shown: Result<&[u8], Refusal>, line: &mut [u8]) -> usize
    requires { (length (answer_of (told_bytes shown)) ≤ code_most) × (line_most ≤ length line.old) }
    ensures value { result ≡ length (told_of (told_bytes shown.entry)) }
    ensures line_after { line.new ≡ over line.old 0 (told_of (told_bytes shown.entry)) }
{
    let refusal = shown.err().map_or(0, Refusal::number);
    let text = shown.unwrap_or(&[]);
    let blank = numbers::writing::decimal(refusal, line, 0);
    line[blank] = b' ';
    let first = blank + 1;
    lent::copy_in(text, line, first);
    let end = first + text.len();
    line[end] = b'\n';
    end + 1
}

// From the bytes read to the bytes written.
fn answer(input: &[u8], line: &mut [u8]) -> usize
    requires { line_most ≤ length line.old }
    ensures value { result ≡ length (formula input.now) }
    ensures line_after { line.new ≡ over line.old 0 (formula input.now) }
{
    let code = cases::field(lent::front(input, READS), 0, b'\n');
    let mut text = [0u8; Limit::CODE.most];
    match algebra::show(code, &mut text) {
        Ok(length) => tell(Ok(&text[..length]), line),
        Err(refusal) => tell(Err(refusal), line),
    }
}

fn main(rt: HostRuntime) -> io::Result<()> {
    let mut input = [0u8; READS];
    let mut line = [0u8; LINE];
    let read = streams::read_full(&mut rt.stdin(), &mut input)?;
    let length = answer(&input[..read], &mut line);
    io::writer(&rt).write_all(&line[..length])
}
