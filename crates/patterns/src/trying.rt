// Patterns tried on an element, re-read from the code string.
// Its loops are written out: only a reader says where the next test or pattern begins.
ghost use Rattle.std.specs.Prelude.{◌+◌, ◌≤◌, ◌<◌, length, drop};
ghost use Rattle.paper.specs.Grammar.{tests, pattern_list};
ghost use Rattle.paper.specs.Patterns.{passes, some_passes};
ghost use Rattle.paper.proofs.Patterns.{nothing};
ghost use Rattle.patterns.specs.Reach.{Marks};
ghost use Rattle.patterns.specs.Readable.{Judged, Decided};

use crate::moving;
use paper::Read;
use readers::patterns::test;
use readers::places::{peek, this};

// Before the first test only the element's front is reached.
fn at_front(e: &[u8], reach: &mut [u8])
    requires { length e.now < length reach.old }
    ensures { Marks nothing e.now reach.new }
{
    reach[..=e.len()].fill(0);
    reach[0] = 1;
}

// One pattern, from behind its `(` to behind its `)`: whether it passed. Nothing may be left over: it passes where the element's end is reached.
fn try_pattern(code: &[u8], from: usize, e: &[u8], reach: &mut [u8]) -> Read<bool>
    requires { length e.now + length e.now < length reach.old }
    ensures from_le_next { from ≤ result.next }
    ensures judged { Judged (λ ts. passes ts e.now) code.now result.value result.next (tests (drop from code.now)) }
{
    at_front(e, reach);
    let mut at = from;
    while let Ok(read) = test(code, at) {
        let ahead = peek(code, read.next);
        if ahead.value == b')' {
            return Read {
                value: moving::ends(read.value, code, e, reach),
                next: ahead.next,
            };
        }
        moving::advance(read.value, code, e, reach);
        at = read.next;
    }
    Read {
        value: false,
        next: at,
    }
}

// "Several patterns pass if one does.": one after the other, until one passes or no `;` follows.
pub(crate) fn some_passes(code: &[u8], start: usize, e: &[u8], reach: &mut [u8]) -> bool
    requires { length e.now + length e.now < length reach.old }
    ensures { Decided (λ ps. some_passes ps e.now) result (pattern_list (drop start code.now)) }
{
    let mut at = start;
    while let Ok(open) = this(code, at, b'(') {
        let pattern = try_pattern(code, open.next, e, reach);
        if pattern.value {
            return true;
        }
        let Ok(more) = this(code, pattern.next, b';') else {
            return false;
        };
        at = more.next;
    }
    false
}
