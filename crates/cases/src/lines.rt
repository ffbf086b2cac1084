// The fields of a case, parted by bars and counted from 0, and the buffers that it is run with.
ghost use Rattle.std.specs.Prelude.{◌≡◌, ◌+◌, ◌≤◌, min, length, drop, replicate};
ghost use Rattle.std.specs.Counts.{IsPrefixLen};
ghost use Rattle.paper.specs.Sizes.{record_most};
ghost use Rattle.cases.specs.Tables.{in_field, typed_part, number_or, laid, behind, spelled, all_zeros};

use crate::{field, number};
use paper::{Address, Limit};

// The longest buffer.
const ROOM: u64 = Limit::RECORD.most as u64;

// The address that is field 1.
pub fn typed_address(line: &[u8]) -> Address
    ensures { (result.a ≡ typed_part 0 line.now) × (result.v ≡ typed_part 1 line.now) × (result.s ≡ typed_part 2 line.now) }
{
    let text = field(line, 1, b'|');
    Address {
        a: number(field(text, 0, b',')),
        v: number(field(text, 1, b',')),
        s: number(field(text, 2, b',')),
    }
}

// A field's number, or the usual one where the case names none.
pub fn number_or(line: &[u8], k: u64, usual: u64) -> u64
    ensures { result ≡ number_or usual (in_field k line.now) }
{
    let text = field(line, k, b'|');
    if text.is_empty() {
        return usual;
    }
    number(text)
}

// A buffer's length: at most a record's.
pub fn length_or(line: &[u8], k: u64, usual: u64) -> usize
    ensures upper_bound { result ≤ record_most }
    ensures value { result ≡ min (number_or usual (in_field k line.now)) record_most }
{
    number_or(line, k, usual).min(ROOM) as usize
}

// Room for a record that is a byte too long.
pub fn record_room() -> [u8; Limit::RECORD.most + 1]
    ensures { (record_most + 1 ≡ length result) × (result ≡ replicate (record_most + 1) 0) }
{
    [0; Limit::RECORD.most + 1]
}

// The longest buffer, full of question marks: what a call leaves of them is seen.
pub fn lent_room() -> [u8; Limit::RECORD.most]
    ensures { (record_most ≡ length result) × (result ≡ replicate record_most 63) }
{
    [b'?'; Limit::RECORD.most]
}

// The bytes that a field stands for, at the front of the output; how many. In a code string no marks are drawn: `]` is an elm.
pub fn spelled_field(line: &[u8], k: u64, marks: bool, out: &mut [u8]) -> usize
    ensures prefix_len { IsPrefixLen result out.new }
    ensures value { result ≡ behind out.old 0 (spelled marks (in_field k line.now)) }
    ensures out_after { out.new ≡ laid out.old 0 (spelled marks (in_field k line.now)) }
{
    crate::spelled(field(line, k, b'|'), marks, out)
}

// Whether all bytes from `from` on are zeros. A counted place, which is compiled to SIMD: with `all` in its place the program over tables took more than
// twice as long when measured, behind a `skip` and over a part of the text alike.
pub fn zeros(text: &[u8], from: usize) -> bool
    ensures { result ≡ all_zeros (drop from text.now) }
{
    let mut at = from;
    while at < text.len() {
        if text[at] != 0 {
            return false;
        }
        at += 1;
    }
    true
}
