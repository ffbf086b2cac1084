// Writing to a writer, of whose bytes these promise nothing: they are proved safe and ending, and what a program writes is held to a stored text.
use cases::lines::zeros;
use cases::{draw, long};
use paper::Refusal;
use std::io;
use std::io::Write;

pub(crate) fn say_refused<W: Write>(out: &mut W, refusal: Refusal) -> io::Result<()> {
    write!(out, ": refused {refusal}")
}

// A short text, with its marks drawn.
fn quote<W: Write>(out: &mut W, text: &[u8]) -> io::Result<()> {
    let mut line = [0u8; cases::SHOWN];
    let n = draw(text, &mut line);
    out.write_all(b"`")?;
    out.write_all(&line[..n])?;
    out.write_all(b"`")
}

// A text; what is too long to be shown is only counted.
pub(crate) fn say_text<W: Write>(out: &mut W, text: &[u8]) -> io::Result<()> {
    if long(text) {
        let bytes = if zeros(text, 0) { "zeros" } else { "bytes" };
        write!(out, "{} {bytes}", text.len())
    } else {
        quote(out, text)
    }
}
