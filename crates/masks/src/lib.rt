// Document 01, "What each code gives": what ML and MR give on one element.
// A text is made from its right end in a small buffer of its own; its length decides 14, and it goes out once, with its fill.
// Every contract is an equality with a definition of crates/paper/specs/Masks.antt, refusals included.
#![tactic(auto)]

ghost use Rattle.std.proofs.Math.Option.{some};
ghost use Rattle.std.specs.Prelude.{◌≡◌, ◌≤◌, length};
ghost use Rattle.paper.specs.Sizes.{entry_most, number_most};
ghost use Rattle.paper.specs.Answers.{told, sized, written};
ghost use Rattle.paper.specs.Refusals.{given};
ghost use Rattle.paper.specs.Steps.{limited};
ghost use Rattle.paper.specs.Masks.{masked_text, laid_out, blank_text, number_masked, mask_gives};
ghost use Rattle.numbers.specs.Forms.{whole};
ghost use Rattle.codes.specs.Meaning.{fill_of, mask_of};
ghost use Rattle.masks.specs.Bounds.{Bounded, field_width};

use codes::{Fill, Mask};
use numbers::Number;
use paper::{Limit, Refusal};

mod scaling;
mod text;

// Room for any text: `$` and a sign, a number's digits with 4 commas, a point with 9 decimals, a suffix of two, each at its most. So 9 is never given.
const LONGEST: usize = 2 + Limit::DIGITS.most + 4 + 10 + 2;

// "ML and MR: empty stays empty, other non-numeric is 12." "Checks: 12, 10, 14, 9."
pub fn give(e: &[u8], mask: Mask, out: &mut [u8]) -> Result<usize, Refusal>
    requires { (entry_most ≤ length out.old) × Bounded (mask_of mask) }
    ensures value { told result ≡ sized (limited entry_most (mask_gives (mask_of mask) e.now)) }
    ensures out_after { out.new ≡ written out.old (limited entry_most (mask_gives (mask_of mask) e.now)) }
{
    if e.is_empty() {
        return Ok(0);
    }
    number_masked(numbers::reading::convertible(e)?, mask, out)
}

// "Z turns an element of 0 into empty text"; "The sign is that of the rounded value."
fn number_masked(x: Number, mask: Mask, out: &mut [u8]) -> Result<usize, Refusal>
    requires { (x.size ≤ number_most) × (99 ≤ length out.old) × Bounded (mask_of mask) }
    ensures value { told result ≡ sized (number_masked (mask_of mask) (whole x)) }
    ensures out_after { out.new ≡ written out.old (number_masked (mask_of mask) (whole x)) }
{
    if mask.blank_zero & (x.size == 0) {
        return blank_text(mask.filled, out);
    }
    let size = scaling::scaled(x.size, mask.decimals, mask.scale)?;
    shown(Number::signed(x.negative, size), mask, out)
}

// the text of a scaled number, laid out
fn shown(y: Number, mask: Mask, out: &mut [u8]) -> Result<usize, Refusal>
    requires { (y.size ≤ number_most) × (99 ≤ length out.old) × Bounded (mask_of mask) }
    ensures value { told result ≡ sized (laid_out mask.left (fill_of mask.filled) (masked_text (mask_of mask) (whole y))) }
    ensures out_after { out.new ≡ written out.old (laid_out mask.left (fill_of mask.filled) (masked_text (mask_of mask) (whole y))) }
{
    let mut text = [0u8; LONGEST];
    let at = text::masked_text(&mut text, y, mask);
    laid_out(&text[at..LONGEST], mask.left, mask.filled, out)
}

// "Fill goes outside that: MR fills on the left, ML on the right." A flag tells ML from MR, as in the codes: an enum would become it here.
fn laid_out(text: &[u8], left: bool, filled: Option<Fill>, out: &mut [u8]) -> Result<usize, Refusal>
    requires { (length text.now ≤ length out.old) × (field_width (fill_of filled) ≤ length out.old) }
    ensures value { told result ≡ sized (laid_out left (fill_of filled) text.now) }
    ensures out_after { out.new ≡ written out.old (laid_out left (fill_of filled) text.now) }
{
    if let Some(fill) = filled {
        return in_field(text, left, fill, out);
    }
    lent::copy_in(text, out, 0);
    Ok(text.len())
}

// a text in its field: refused where it is wider, else filled up to the width
fn in_field(text: &[u8], left: bool, fill: Fill, out: &mut [u8]) -> Result<usize, Refusal>
    requires { fill.width ≤ length out.old }
    ensures value { told result ≡ sized (laid_out left (some (fill.byte, fill.width)) text.now) }
    ensures out_after { out.new ≡ written out.old (laid_out left (some (fill.byte, fill.width)) text.now) }
{
    let width = fill.width as usize;
    let count = text.len();
    if width < count {
        return Err(Refusal::WiderThanMask);
    }
    let rest = width - count;
    if left {
        lent::copy_in(text, out, 0);
        lent::fill(out, count, rest, fill.byte);
    } else {
        lent::fill(out, 0, rest, fill.byte);
        lent::copy_in(text, out, rest);
    }
    Ok(width)
}

// "into empty text, and into blanks under a mask of any fill"
fn blank_text(filled: Option<Fill>, out: &mut [u8]) -> Result<usize, Refusal>
    requires { field_width (fill_of filled) ≤ length out.old }
    ensures value { told result ≡ sized (given (blank_text (fill_of filled))) }
    ensures out_after { out.new ≡ written out.old (given (blank_text (fill_of filled))) }
{
    let Some(fill) = filled else {
        return Ok(0);
    };
    let width = fill.width as usize;
    lent::fill(out, 0, width, b' ');
    Ok(width)
}
