// Typed dates. A case is `CODE|DATE`; behind it stands its internal day or its refusal.
use crate::showing::say_refused;
use cases::field;
use std::io;
use std::io::Write;

pub(crate) fn show<W: Write>(out: &mut W, line: &[u8]) -> io::Result<()> {
    match typed::typed_date(field(line, 0, b'|'), field(line, 1, b'|')) {
        Ok(day) => write!(out, ": day {day}"),
        Err(refusal) => say_refused(out, refusal),
    }
}
