// The calls that `./console` has words for, over the proved functions: one call on standard input, a line of named numbers on standard output.
// Line 1 is the call's letter, and the lines behind it are its words in the order in which they are typed, records and codes with raw marks:
// `c` checking: code; `f` finding: address, record; `r` replacing: address, record, new element; `d` a typed date: code, text; `b`, or any other letter, the
// ceiling: address, record, code. A line ends at byte 10, missing lines are empty, and 65,536 bytes are read, as by document 01's program.
// That the answers are right is proved of the crates below; this shows them, is proved safe and ending, and is held to a stored text and to the vectors.
#![tactic(auto)]

mod placed;
mod showing;

use crate::placed::Call;
use crate::showing::{say_day, say_refusal};
use cases::{field, first_byte};
use std::io;
use std::io::Write;
use streams::READS;

// "the first bad code, 6 or 7", or 18, "with that code's number from 1; accepted, it gives A and B", and P and T with them
fn check<W: Write>(out: &mut W, code: &[u8]) -> io::Result<()> {
    match judging::check(code) {
        Ok(counts) => write!(
            out,
            "refusal = 0, A = {}, B = {}, P = {}, T = {}",
            counts.loads, counts.others, counts.patterns, counts.tests
        ),
        Err(bad) => write!(
            out,
            "refusal = {}, code = {}",
            bad.refusal.number(),
            bad.code
        ),
    }
}

fn date<W: Write>(out: &mut W, code: &[u8], text: &[u8]) -> io::Result<()> {
    match typed::typed_date(code, text) {
        Ok(day) => say_day(out, day),
        Err(refusal) => say_refusal(out, refusal),
    }
}

// A call that has no address, or else one that has.
fn answer<W: Write>(out: &mut W, input: &[u8]) -> io::Result<()> {
    let first = field(input, 1, b'\n');
    let second = field(input, 2, b'\n');
    // line 3 is looked for only in a call with an address: behind the others anything may stand
    match first_byte(input) {
        b'c' => check(out, first)?,
        b'd' => date(out, first, second)?,
        b'f' => placed::answer(out, Call::Find, first, second, field(input, 3, b'\n'))?,
        b'r' => placed::answer(out, Call::Replace, first, second, field(input, 3, b'\n'))?,
        _ => placed::answer(out, Call::Ceiling, first, second, field(input, 3, b'\n'))?,
    }
    out.write_all(b"\n")
}

fn main(rt: HostRuntime) -> io::Result<()> {
    let mut buffer = [0u8; READS];
    let count = streams::read_full(&mut rt.stdin(), &mut buffer)?;
    answer(&mut io::writer(&rt), &buffer[..count])
}
