// The P code (document 02, L1): "The code gives the element if it can be cut into consecutive parts that meet the tests in turn, else empty."
// All cuts are tried at once, test by test, so that the work is one pass over the element for each test.
#![tactic(auto)]

ghost use Rattle.std.specs.Prelude.{◌≡◌, ◌≤◌, length};
ghost use Rattle.paper.specs.Sizes.{entry_most};
ghost use Rattle.paper.specs.Refusals.{given};
ghost use Rattle.paper.specs.Answers.{told, sized, written};
ghost use Rattle.paper.specs.Patterns.{patterns_give};
ghost use Rattle.paper.specs.Steps.{limited};
ghost use Rattle.codes.specs.Meaning.{patterns_at};
ghost use Rattle.patterns.specs.Readable.{Readable};

use paper::{Limit, Refusal};

mod class;
mod moving;
mod trying;

// A flag for each place of an element, and behind them one for each of its bytes, which runs are carried to without a test for the end.
const FLAGS: usize = 2 * Limit::ENTRY.most + 1;

// P on one element, with the patterns that stand at `start` of the code string.
pub fn give(code: &[u8], start: usize, e: &[u8], out: &mut [u8]) -> Result<usize, Refusal>
    requires { (length e.now ≤ entry_most) × (entry_most ≤ length out.old) × Readable code.now start }
    ensures value { told result ≡ sized (limited entry_most (given (patterns_give (patterns_at code.now start) e.now))) }
    ensures out_after { out.new ≡ written out.old
        (limited entry_most (given (patterns_give (patterns_at code.now start) e.now))) }
{
    let mut reach = [0; FLAGS];
    if trying::some_passes(code, start, e, &mut reach) {
        lent::copy_in(e, out, 0);
        return Ok(e.len());
    }
    Ok(0)
}
