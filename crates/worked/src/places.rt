// Finding, extracting and replacing. A case is `find|ADDRESS|RECORD` or `replace|ADDRESS|RECORD|ELEMENT|ROOM`.
// Behind it stand place and length, missing, or the refusal, and then the part, or the whole output.
use crate::showing::{say_refused, say_text};
use cases::first_byte;
use cases::lines::{length_or, lent_room, spelled_field, typed_address};
use paper::Limit;
use std::io;
use std::io::Write;

fn find<W: Write>(to: &mut W, line: &[u8], item: &[u8]) -> io::Result<()> {
    let at = typed_address(line);
    match records::find(item, at) {
        Ok(Some(part)) => write!(to, ": at {}, length {}", part.start, part.len)?,
        Ok(None) => write!(to, ": missing")?,
        Err(refusal) => say_refused(to, refusal)?,
    }
    write!(to, ", ")?;
    say_text(to, records::extract(item, at))
}

fn replace<W: Write>(
    to: &mut W,
    line: &[u8],
    item: &[u8],
    new: &[u8],
    out: &mut [u8],
) -> io::Result<()> {
    match records::replace(item, typed_address(line), new, out) {
        Ok(length) => write!(to, ": length {length}")?,
        Err(refusal) => say_refused(to, refusal)?,
    }
    write!(to, ", output ")?;
    say_text(to, out)
}

fn lend<W: Write>(to: &mut W, line: &[u8], item: &[u8], new: &[u8]) -> io::Result<()> {
    let mut out = lent_room();
    let size = length_or(line, 4, 0);
    replace(to, line, item, new, &mut out[0..size])
}

// The new element may be a byte too long.
fn show_replace<W: Write>(to: &mut W, line: &[u8], item: &[u8]) -> io::Result<()> {
    let mut new = [0u8; Limit::ENTRY.most + 1];
    let n = spelled_field(line, 3, true, &mut new);
    lend(to, line, item, &new[..n])
}

pub(crate) fn show<W: Write>(to: &mut W, line: &[u8], item: &[u8]) -> io::Result<()> {
    if first_byte(line) == b'f' {
        find(to, line, item)
    } else {
        show_replace(to, line, item)
    }
}
