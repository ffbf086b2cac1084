// Converting. A case is `CODE|ADDRESS|RECORD|BUDGET|OUTPUT|SCRATCH`, the last three where they matter; marks are drawn as in the paper.
// Behind it stand its answer or refusal, its steps, and what it leaves in the buffers.
use crate::showing::{say_refused, say_text};
use cases::field;
use cases::lines::{length_or, lent_room, number_or, spelled_field, typed_address, zeros};
use convert::Converted;
use paper::Limit;
use std::io;
use std::io::Write;

// What a case is run with when it names no other.
const BUDGET: u64 = 1_000_000;

const OUTPUT: u64 = 1_100;

const SCRATCH: u64 = Limit::SCRATCH.most as u64;

// The answer or the refusal, and the steps.
fn say_converted<W: Write>(to: &mut W, given: Converted, out: &[u8]) -> io::Result<()> {
    match given.answer {
        Ok(length) => {
            write!(to, ": ")?;
            say_text(to, lent::front(out, length))?;
        }
        Err(refusal) => say_refused(to, refusal)?,
    }
    write!(to, ", {} steps", given.steps)
}

// "that buffer holds the answer and then zeros to its end"
fn say_output<W: Write>(to: &mut W, line: &[u8], length: usize, out: &[u8]) -> io::Result<()> {
    if field(line, 4, b'|').len() != 0 {
        write!(to, ", output ")?;
        say_text(to, out)?;
    }
    if !zeros(out, length) {
        write!(to, ", output not zeros behind the answer")?;
    }
    Ok(())
}

// "Scratch is zeros throughout after every call."
fn say_scratch<W: Write>(to: &mut W, scratch: &[u8]) -> io::Result<()> {
    let not = if zeros(scratch, 0) { "" } else { "not " };
    write!(to, ", scratch {not}zeros")
}

// What is answered and what is left.
fn converted<'a, W: Write>(
    to: &mut W,
    line: &[u8],
    item: &'a [u8],
    code: &'a [u8],
    out: &mut [u8],
    scratch: &mut [u8],
) -> io::Result<()> {
    let at = typed_address(line);
    let budget = number_or(line, 3, BUDGET);
    let given = convert::convert(item, code, at, budget, out, scratch);
    say_converted(to, given, out)?;
    say_output(to, line, given.answer.unwrap_or(0), out)?;
    say_scratch(to, scratch)
}

fn lend<'a, W: Write>(to: &mut W, line: &[u8], item: &'a [u8], code: &'a [u8]) -> io::Result<()> {
    let mut out = lent_room();
    let mut scratch = lent_room();
    let room = length_or(line, 4, OUTPUT);
    let lent = length_or(line, 5, SCRATCH);
    converted(
        to,
        line,
        item,
        code,
        &mut out[0..room],
        &mut scratch[0..lent],
    )
}

pub(crate) fn show<W: Write>(to: &mut W, line: &[u8], item: &[u8]) -> io::Result<()> {
    let mut code = [0u8; Limit::CODE.most + 1];
    let n = spelled_field(line, 0, false, &mut code);
    lend(to, line, item, &code[..n])
}
