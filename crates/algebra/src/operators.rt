// Document 02, L4: "operators are `+ - * / :` and the six relations", each in F's spelling.
ghost use Rattle.std.specs.Prelude.{◌≡◌, ◌≤◌, length, drop};
ghost use Rattle.algebra.specs.Grammar.{operator};
ghost use Rattle.algebra.specs.Laying.{Signs, ordered};

use paper::Read;
use readers::places::peek;

// `<` or `>`, and the `=` that may stand behind it.
fn or_equal(code: &[u8], at: usize, with_it: u8, without: u8) -> Read<u8>
    ensures { result ≡ ordered code.now at with_it without }
{
    let ahead = peek(code, at);
    if ahead.value == b'=' {
        Read {
            value: with_it,
            next: ahead.next,
        }
    } else {
        Read {
            value: without,
            next: at,
        }
    }
}

// The operator at a place, if one stands there: its byte in F and the place after it.
pub(crate) fn operator(code: &[u8], at: usize) -> Option<Read<u8>>
    requires { at ≤ length code.now }
    ensures { Signs code.now at (operator (drop at code.now)) result }
{
    let ahead = peek(code, at);
    // an arm each: tried as one with `|`, and the proof did not close, for its parts have no names to cite
    match ahead.value {
        b'+' => Some(ahead),
        b'-' => Some(ahead),
        b'*' => Some(ahead),
        b'/' => Some(ahead),
        b':' => Some(ahead),
        b'=' => Some(ahead),
        b'#' => Some(ahead),
        b'<' => Some(or_equal(code, ahead.next, b'[', b'<')),
        b'>' => Some(or_equal(code, ahead.next, b']', b'>')),
        _ => None,
    }
}
