// The calls that have an address: finding, replacing and the ceiling.
use crate::showing::{say_drawn, say_refusal};
use paper::{Address, Limit};
use std::io;
use std::io::Write;

#[derive(Clone, Copy)]
pub(crate) enum Call {
    Find,
    Replace,
    Ceiling,
}

// "The answer of finding is "found" or "missing"", and of a part that is found where it starts, its length and the part itself
fn find<W: Write>(out: &mut W, item: &[u8], at: Address) -> io::Result<()> {
    match records::find(item, at) {
        Ok(Some(part)) => {
            write!(
                out,
                "refusal = 0, found = 1, start = {}, length = {}, part = ",
                part.start, part.len
            )?;
            say_drawn(out, records::extract(item, at))
        }
        Ok(None) => write!(out, "refusal = 0, found = 0"),
        Err(refusal) => say_refusal(out, refusal),
    }
}

// "Replacing writes a new record to the output": a record's length is room enough, so 16 is never given. Not compiled into its caller, so that no other
// call takes the stack of its buffer.
#[inline(never)]
fn replace<W: Write>(out: &mut W, item: &[u8], at: Address, new: &[u8]) -> io::Result<()> {
    let mut room = [0u8; Limit::RECORD.most];
    match records::replace(item, at, new, &mut room) {
        Ok(length) => {
            write!(out, "refusal = 0, length = {length}, record = ")?;
            say_drawn(out, lent::front(&room, length))
        }
        Err(refusal) => say_refusal(out, refusal),
    }
}

// The most that converting can cost, before anything runs.
fn ceiling<W: Write>(out: &mut W, item: &[u8], at: Address, code: &[u8]) -> io::Result<()> {
    match convert::ceiling(item, code, at) {
        Ok(most) => write!(out, "refusal = 0, ceiling = {most}"),
        Err(refusal) => say_refusal(out, refusal),
    }
}

// What is not "three numbers of 1 to 5 digits parted by commas" is refused before anything else, as by document 01's program.
pub(crate) fn answer<W: Write>(
    out: &mut W,
    call: Call,
    address: &[u8],
    item: &[u8],
    third: &[u8],
) -> io::Result<()> {
    match (grammar::addresses::address(address), call) {
        (Ok(at), Call::Find) => find(out, item, at),
        (Ok(at), Call::Replace) => replace(out, item, at, third),
        (Ok(at), Call::Ceiling) => ceiling(out, item, at, third),
        (Err(refusal), _) => say_refusal(out, refusal),
    }
}
