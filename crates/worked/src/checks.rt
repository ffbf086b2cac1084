// Checking: each line is a code string, an empty one too. Behind it stand refusal, code number, A, B, P and T.
// The table has every form of the grammar once, near misses of each, and document 01's examples on both sides.
use std::io;
use std::io::Write;

// "A number not given here, by any call, is 0."
pub(crate) fn show<W: Write>(out: &mut W, string: &[u8]) -> io::Result<()> {
    match judging::check(string) {
        Ok(counts) => write!(
            out,
            ": 0 0 {} {} {} {}",
            counts.loads, counts.others, counts.patterns, counts.tests
        ),
        Err(bad) => write!(out, ": {} {} 0 0 0 0", bad.refusal.number(), bad.code),
    }
}
