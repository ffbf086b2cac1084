// What the programs read by: a buffer filled from a reader, as far as its bytes go.
#![tactic(auto)]

ghost use Rattle.std.specs.Prelude.{IfOk};
ghost use Rattle.std.specs.Counts.{IsPrefixLen};

use std::io;
use std::io::Read;

// "only 65,536 bytes are read", by every program
pub const READS: usize = 65_536;

// Reads until the buffer is full or the input ends; how many bytes stand at its front.
// The reader says how far each read came: `read_exact` would refuse an input that is shorter than the buffer.
pub fn read_full<R: Read>(from: &mut R, buf: &mut [u8]) -> io::Result<usize>
    ensures { IfOk result (λ n. IsPrefixLen n buf.new) }
{
    let mut done = 0;
    while done < buf.len() {
        let n = from.read(&mut buf[done..])?;
        if n == 0 {
            break;
        }
        done += n;
    }
    Ok(done)
}
