// What the codes that cut, keep or spell bytes give on one element: G, T, L, MC, MX and MY.
// Each call writes its answer in front of the lent output, or refuses and leaves the output as it was: no heap, so the buffer comes along.
// The contracts cite document 01 through `outcome`: what the code gives, within the limit on a step's result.
#![tactic(auto)]

ghost use Rattle.std.specs.Prelude.{◌≡◌, ◌≤◌, length};
ghost use Rattle.paper.specs.Bytes.{any};
ghost use Rattle.paper.specs.Sizes.{entry_most};
ghost use Rattle.paper.specs.Refusals.{given};
ghost use Rattle.paper.specs.Answers.{told, sized, written};
ghost use Rattle.paper.specs.Codes.{Plain};
ghost use Rattle.paper.specs.Steps.{limited};
ghost use Rattle.texts.specs.Codes.{outcome, kept_code, kept, cased_code, turned};
ghost use Rattle.texts.specs.Scans.{is_other, decoded};

use paper::{Limit, Refusal};

mod hexit;
pub mod letter;
mod part;

// What MCA, MC/A, MCN and MC/N keep (001, 4.8). An enum and no closure: the contracts name the code by it.
#[derive(Clone, Copy)]
pub enum Class {
    Letters,
    OtherThanLetters,
    Numerals,
    OtherThanNumerals,
}

// How MCU, MCL and MCT write letters (001, 4.8). An enum for the same reason.
#[derive(Clone, Copy)]
pub enum Casing {
    Upper,
    Lower,
    Title,
}

// Whether a code of this class keeps the byte.
#[tactic(auto, unfolding(crate::specs::Codes::kept))]
fn keeps(class: Class, b: u8) -> bool
    ensures { result ≡ kept class b }
{
    match class {
        Class::Letters => letter::is_letter(b),
        Class::OtherThanLetters => !letter::is_letter(b),
        Class::Numerals => letter::is_digit(b),
        Class::OtherThanNumerals => !letter::is_digit(b),
    }
}

// One byte in the case asked for. The cases of a letter differ in the bit 32: set and cleared so, MCT is compiled to SIMD.
#[tactic(auto, unfolding(crate::specs::Codes::turned), using(crate::proofs::Cases::letter_bits))]
fn turn(case: Casing, after_letter: bool, b: u8) -> u8
    ensures { result ≡ turned case after_letter b }
{
    match case {
        Casing::Upper => letter::raise(b),
        Casing::Lower => letter::lower(b),
        Casing::Title => {
            if letter::is_letter(b) {
                if after_letter { b | 32 } else { b & 223 }
            } else {
                b
            }
        }
    }
}

// MCU, MCL and MCT.
pub fn recase(e: &[u8], case: Casing, out: &mut [u8]) -> Result<usize, Refusal>
    requires { (length e.now ≤ entry_most) × (entry_most ≤ length out.old) }
    ensures value { told result ≡ sized (outcome (cased_code case) e.now) }
    ensures out_after { out.new ≡ written out.old (outcome (cased_code case) e.now) }
{
    let mut after_letter = false;
    // An index is kept here: of what is written through `iter_mut` a proof knows the length alone.
    for (i, &b) in e.iter().enumerate() {
        out[i] = turn(case, after_letter, b);
        after_letter = letter::is_letter(b);
    }
    Ok(e.len())
}

// MCA, MC/A, MCN and MC/N.
pub fn keep(e: &[u8], class: Class, out: &mut [u8]) -> Result<usize, Refusal>
    requires { (length e.now ≤ entry_most) × (entry_most ≤ length out.old) }
    ensures value { told result ≡ sized (outcome (kept_code class) e.now) }
    ensures out_after { out.new ≡ written out.old (outcome (kept_code class) e.now) }
{
    let mut n = 0; // how far the output has come, which is no index of the element
    for &b in e {
        if keeps(class, b) {
            out[n] = b;
            n += 1;
        }
    }
    Ok(n)
}

// A part of the element as the answer.
fn give(part: &[u8], out: &mut [u8]) -> Result<usize, Refusal>
    requires { (length part.now ≤ entry_most) × (entry_most ≤ length out.old) }
    ensures value { told result ≡ sized (limited entry_most (given part.now)) }
    ensures out_after { out.new ≡ written out.old (limited entry_most (given part.now)) }
{
    lent::copy_in(part, out, 0);
    Ok(part.len())
}

// T: "`Tm,n` n bytes from byte m on, fewer if the element ends".
pub fn extract(e: &[u8], start: u64, count: u64, out: &mut [u8]) -> Result<usize, Refusal>
    requires { (length e.now ≤ entry_most) × (entry_most ≤ length out.old) }
    ensures value { told result ≡ sized (outcome (Plain.extract start count) e.now) }
    ensures out_after { out.new ≡ written out.old (outcome (Plain.extract start count) e.now) }
{
    let rest = part::after(e, part::index(start));
    give(lent::front(rest, count as usize), out)
}

// `L`: "alone gives the length".
pub fn measure(e: &[u8], out: &mut [u8]) -> Result<usize, Refusal>
    requires { (length e.now ≤ entry_most) × (entry_most ≤ length out.old) }
    ensures value { told result ≡ sized (outcome Plain.measure e.now) }
    ensures out_after { out.new ≡ written out.old (outcome Plain.measure e.now) }
{
    Ok(numbers::writing::decimal(e.len() as u64, out, 0))
}

// `Ln` and `Ln,m`: "the element or empty".
pub fn admit(e: &[u8], least: u64, most: u64, out: &mut [u8]) -> Result<usize, Refusal>
    requires { (length e.now ≤ entry_most) × (entry_most ≤ length out.old) }
    ensures value { told result ≡ sized (outcome (Plain.admit least most) e.now) }
    ensures out_after { out.new ≡ written out.old (outcome (Plain.admit least most) e.now) }
{
    give(part::admitted(e, least, most), out)
}

// G: "skips fields, then takes up to the number asked, separators between them kept".
pub fn group(
    e: &[u8],
    skip: u64,
    separator: u8,
    take: u64,
    out: &mut [u8],
) -> Result<usize, Refusal>
    requires { (length e.now ≤ entry_most) × (entry_most ≤ length out.old) }
    ensures value { told result ≡ sized (outcome (Plain.group skip separator take) e.now) }
    ensures out_after { out.new ≡ written out.old (outcome (Plain.group skip separator take) e.now) }
{
    let rest = part::skip_fields(e, separator, skip);
    give(part::take_fields(rest, separator, take), out)
}

// MX: the length is tested first, so that a refusal leaves the output as it was.
pub fn hex(e: &[u8], out: &mut [u8]) -> Result<usize, Refusal>
    requires { (length e.now ≤ entry_most) × (entry_most ≤ length out.old) }
    ensures value { told result ≡ sized (outcome Plain.hex e.now) }
    ensures out_after { out.new ≡ written out.old (outcome Plain.hex e.now) }
{
    if Limit::ENTRY.most < 2 * e.len() {
        return Err(Refusal::OverLongEntry);
    }
    // By index, as in `recase`.
    for (i, &b) in e.iter().enumerate() {
        out[2 * i] = hexit::digit(b / 16);
        out[2 * i + 1] = hexit::digit(b % 16);
    }
    Ok(2 * e.len())
}

// Whether a byte is there that is no hex digit. No early exit and no branch, so that it is compiled to SIMD.
// A `bool` collects the tests by `|`, and is compiled so as it stands; `lent` sets a flag under an `if`, which wants one as wide as a byte.
#[tactic(auto, using(lent::proofs::Scans::any_next, lent::proofs::Scans::any_all))]
fn has_other(e: &[u8]) -> bool
    ensures { result ≡ any is_other e.now }
{
    let mut found = false;
    for &b in e {
        found |= hexit::is_other(b);
    }
    found
}

// The bytes that pairs of hex digits spell, in front of the output, and how many they are.
fn decode(e: &[u8], out: &mut [u8]) -> usize
    requires { length e.now ≤ length out.old }
    ensures value { result ≡ length (decoded e.now) }
    ensures out_after { out.new ≡ written out.old (given (decoded e.now)) }
{
    for (i, pair) in e.chunks_exact(2).enumerate() {
        out[i] = hexit::byte(pair[0], pair[1]);
    }
    e.len() / 2
}

// MY: 12 anywhere, before 13. The bytes are spelled beside the output, so that a refusal leaves the output as it was.
pub fn unhex(e: &[u8], out: &mut [u8]) -> Result<usize, Refusal>
    requires { (length e.now ≤ entry_most) × (entry_most ≤ length out.old) }
    ensures value { told result ≡ sized (outcome Plain.unhex e.now) }
    ensures out_after { out.new ≡ written out.old (outcome Plain.unhex e.now) }
{
    if e.len() % 2 != 0 {
        return Err(Refusal::NotConvertible);
    }
    if has_other(e) {
        return Err(Refusal::NotConvertible);
    }
    let mut spelled = [0u8; Limit::ENTRY.most];
    let n = decode(e, &mut spelled);
    let part = &spelled[..n];
    if lent::marked(part) {
        return Err(Refusal::MarkFromHex);
    }
    give(part, out)
}
