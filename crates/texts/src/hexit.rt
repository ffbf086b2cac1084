// Hex digits: which bytes they are, what one stands for, and the pair that spells a byte.
ghost use Rattle.std.specs.Prelude.{◌≡◌, ◌<◌, ◌+◌, ◌*◌};
ghost use Rattle.paper.specs.Texts.{hex_digit};
ghost use Rattle.texts.specs.Scans.{is_other, worth};

// "MX writes upper-case hex".
#[tactic(auto, using(crate::proofs::Spelling::digit_below, crate::proofs::Spelling::letter_above))]
pub(crate) fn digit(n: u8) -> u8
    requires { n < 16 }
    ensures { result ≡ hex_digit n }
{
    match n {
        0..=9 => b'0' + n,
        _ => b'A' + (n - 10),
    }
}

// Whether a byte is no hex digit: "MY reads either case". No branch, so that a loop over it is compiled to SIMD.
#[tactic(auto, using(crate::proofs::Spelling::not_hexdigit))]
pub(crate) fn is_other(b: u8) -> bool
    ensures { result ≡ is_other b }
{
    !b.is_ascii_hexdigit()
}

// What a hex digit stands for: the low half of its byte, and 9 more for a letter.
pub(crate) fn value(b: u8) -> u8
    ensures { result ≡ worth b }
{
    (b % 16 + b / 64 * 9) % 16
}

// The byte that two hex digits spell.
pub(crate) fn byte(h: u8, l: u8) -> u8
    ensures { result ≡ worth h * 16 + worth l }
{
    value(h) * 16 + value(l)
}
