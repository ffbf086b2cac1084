// Writing to a writer, of whose bytes these promise nothing: they are proved safe and ending.
use numbers::Number;
use paper::{Limit, Refusal};
use std::io;
use std::io::Write;

// Every line begins with a refusal's number; it is 0 where a call answers.
pub(crate) fn say_refusal<W: Write>(out: &mut W, refusal: Refusal) -> io::Result<()> {
    write!(out, "refusal = {refusal}")
}

// "day 0 is 31 December 1967", and a day before it has a minus
pub(crate) fn say_day<W: Write>(out: &mut W, day: Number) -> io::Result<()> {
    write!(out, "refusal = 0, day = {day}")
}

// A text, its marks drawn; it stands last in its line, since it may hold anything. The buffer is a record's, that of `worked` a short line's.
// Not compiled into its callers, for the same reason as `placed::replace`.
#[inline(never)]
pub(crate) fn say_drawn<W: Write>(out: &mut W, text: &[u8]) -> io::Result<()> {
    let mut line = [0u8; Limit::RECORD.most];
    let n = cases::draw(text, &mut line);
    out.write_all(&line[..n])
}
