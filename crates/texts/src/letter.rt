// Letter classes (document 01: "Letters are ASCII") and the case of one byte. No branch, so that a loop over them is compiled to SIMD.
// The classes are document 01's form: matches on bytes with ranges.
ghost use Rattle.std.specs.Prelude.{◌≡◌};
ghost use Rattle.paper.specs.Bytes.{is_upper, is_lower, is_letter, is_digit};
ghost use Rattle.paper.specs.Texts.{raised, lowered};

#[tactic(auto, unfolding(paper::specs::Bytes::is_upper))]
fn is_upper(b: u8) -> bool
    ensures { result ≡ is_upper b }
{
    matches!(b, b'A'..=b'Z')
}

#[tactic(auto, unfolding(paper::specs::Bytes::is_lower))]
fn is_lower(b: u8) -> bool
    ensures { result ≡ is_lower b }
{
    matches!(b, b'a'..=b'z')
}

// A match for each range, put together with no branch.
#[tactic(auto, unfolding(paper::specs::Bytes::is_letter))]
pub fn is_letter(b: u8) -> bool
    ensures { result ≡ is_letter b }
{
    is_upper(b) | is_lower(b)
}

#[tactic(auto, unfolding(paper::specs::Bytes::is_digit))]
pub fn is_digit(b: u8) -> bool
    ensures { result ≡ is_digit b }
{
    matches!(b, b'0'..=b'9')
}

// A lower-case letter as its capital, any other byte as it is.
#[tactic(auto, using(crate::proofs::Cases::uppercased))]
pub(crate) fn raise(b: u8) -> u8
    ensures { result ≡ raised b }
{
    b.to_ascii_uppercase()
}

// A capital as its lower-case letter, any other byte as it is.
#[tactic(auto, using(crate::proofs::Cases::lowercased))]
pub(crate) fn lower(b: u8) -> u8
    ensures { result ≡ lowered b }
{
    b.to_ascii_lowercase()
}
