// Finding, extracting and replacing in a record: document 01, "The record and its addresses".
// A record is tested once, in a loop without early exit; then its marks are counted from the left, no byte twice:
// by blocks where there may be many bytes, which is compiled to SIMD, and one by one where there are few.
// `find`, `extract` and `replace` take any input; the rest is for the crates above, which have tested the record.
#![tactic(auto)]

ghost use Rattle.std.specs.Prelude.{◌≡◌, ◌+◌, ◌-◌, ◌^◌, ◌≤◌, ◌<◌, ◌++◌, length, take, drop, replicate};
ghost use Rattle.paper.specs.Bytes.{any, buffer};
ghost use Rattle.paper.specs.Sizes.{attribute_mark};
ghost use Rattle.paper.specs.Refusals.{answer_of};
ghost use Rattle.paper.specs.Answers.{told, sized};
ghost use Rattle.paper.specs.Records.{lawful_id, lawful_record, lawful_address, place, path, reads, find, extract, replace};
ghost use Rattle.records.specs.Found.{lawful_find, found_of, part_of, part_in, Within, part_bytes, part_there};
ghost use Rattle.records.specs.Scan.{tally, is_either, skip, spot_at, attribute, in_value, in_attribute, spot, marks, made, changed, changed_length};
ghost use Rattle.records.specs.Planned.{lawful_new, Small, sized_plan, planned};
ghost use Rattle.lent.specs.Over.{over};
ghost use Rattle.lent.specs.Scan.{first_place};

use lent::{BLOCK, far_within, first_within, some_within};
use paper::{Address, Limit, Mark, Refusal};

// A part of the record: where it starts, and how many bytes it has.
#[derive(Clone, Copy)]
pub struct Span {
    pub start: usize,
    pub len: usize,
}

// Where a scan for marks stopped, and how many it had still to pass.
#[derive(Clone, Copy)]
struct Stop {
    at: usize,
    left: u64,
}

// The place of an address: its part, or, missing, where it is to be made and by how many marks of each kind.
#[derive(Clone, Copy)]
struct Spot {
    start: usize,
    end: usize,
    attributes: u64,
    values: u64,
    subvalues: u64,
}

// What a replacement is to do: write at a spot, with so many bytes in all.
#[derive(Clone, Copy)]
struct Plan {
    spot: Spot,
    total: usize,
}

// The limits of an address, as an address has them.
const ATTRIBUTES: u64 = Limit::ATTRIBUTE.most as u64;

const POSITIONS: u64 = Limit::POSITION.most as u64;

// A record below this is short.
const SHORT: usize = 4 * BLOCK;

// How many bytes are the mark.
fn tally(text: &[u8], mark: Mark) -> u64
    ensures { result ≡ tally mark.byte text.now }
{
    lent::count(text, |b| b == mark.byte)
}

// Past n marks, until a mark above them ends the piece that holds them.
// The two tests stand apart and the bytes are walked, not a range of places: the other forms were slower when measured.
fn skip(item: &[u8], from: usize, mark: Mark, n: u64) -> Stop
    requires { from ≤ length item.now }
    ensures { result ≡ skip mark.byte (drop from item.now) from n }
{
    let mut left = n;
    for (passed, &b) in item[from..].iter().enumerate() {
        let at = from + passed;
        if left == 0 {
            return Stop { at, left };
        }
        if (mark.byte < b) & (b <= Mark::ATTRIBUTE.byte) {
            return Stop { at, left };
        }
        if b == mark.byte {
            left -= 1;
        }
    }
    Stop {
        at: item.len(),
        left,
    }
}

// Past the blocks that end neither the marks to pass nor the piece that holds them.
// Not a `position`: two things are carried from block to block, the place and the marks still to pass.
fn skip_blocks(item: &[u8], from: usize, mark: Mark, n: u64) -> Stop
    requires { (from ≤ length item.now) × (mark.byte ≤ attribute_mark) }
    ensures at_in_bounds { result.at ≤ length item.now }
    ensures n_value { skip mark.byte (drop from item.now) from n ≡ skip mark.byte (drop result.at item.now) result.at result.left }
{
    let mut at = from;
    let mut left = n;
    for block in item[from..].chunks_exact(BLOCK) {
        let passed = tally(block, mark);
        let closed = some_within(block, mark.byte + 1, Mark::ATTRIBUTE.byte);
        if (left <= passed) | closed {
            return Stop { at, left };
        }
        left -= passed;
        at += BLOCK;
    }
    Stop { at, left }
}

// Past n marks: by blocks, and the last bytes one by one.
fn far_pass(item: &[u8], from: usize, mark: Mark, n: u64) -> Stop
    requires { (from ≤ length item.now) × (mark.byte ≤ attribute_mark) }
    ensures { result ≡ skip mark.byte (drop from item.now) from n }
{
    let near = skip_blocks(item, from, mark, n);
    skip(item, near.at, mark, near.left)
}

// Past n marks. A short record is walked byte by byte: tests of blocks would cost more than they save.
// Here and below `&*` lends the record anew to the scan by blocks: handed on itself it would have to stand in memory.
#[tactic(auto, using(crate::proofs::Scanning::stop_told))]
fn pass(item: &[u8], from: usize, mark: Mark, n: u64) -> Stop
    requires { (from ≤ length item.now) × (mark.byte ≤ attribute_mark) }
    ensures value { result ≡ skip mark.byte (drop from item.now) from n }
    ensures at_in_bounds { result.at ≤ length item.now }
{
    if item.len() < SHORT {
        return skip(item, from, mark, n);
    }
    far_pass(&*item, from, mark, n)
}

// Whether a byte x or y is there.
fn holds(text: &[u8], x: Mark, y: Mark) -> bool
    ensures { result ≡ any (is_either x.byte y.byte) text.now }
{
    lent::some(text, |b| (b == x.byte) | (b == y.byte))
}

// Refusal 3: "id over 48 .., or holding 252 or 253".
fn lawful_id(item: &[u8]) -> Result<(), Refusal>
    ensures { told result ≡ lawful_id item.now }
{
    let end = lent::place_of(item, 0, Mark::ATTRIBUTE.byte);
    if Limit::ID.most < end {
        return Err(Refusal::BadId);
    }
    if holds(&item[0..end], Mark::SUBVALUE, Mark::VALUE) {
        return Err(Refusal::BadId);
    }
    Ok(())
}

// Refusals 1, 2, 3, the first that holds.
#[tactic(auto, unfolding(paper::specs::Records::lawful_record, paper::specs::Sizes::is_outer_mark, crate::specs::Scan::is_either))]
fn lawful(item: &[u8]) -> Result<(), Refusal>
    ensures { told result ≡ lawful_record item.now }
{
    if Limit::RECORD.most < item.len() {
        return Err(Refusal::OverLongRecord);
    }
    if holds(item, Mark::BUFFER, Mark::SEGMENT) {
        return Err(Refusal::BadByte);
    }
    lawful_id(item)
}

// Refusal 4.
#[tactic(auto, unfolding(paper::specs::Records::lawful_address))]
fn lawful_address(at: Address) -> Result<(), Refusal>
    ensures { told result ≡ lawful_address at.a at.v at.s }
{
    let Address { a, v, s } = at;
    if !((a <= ATTRIBUTES) & (v <= POSITIONS) & (s <= POSITIONS)) {
        return Err(Refusal::BadAddress);
    }
    if ((v == 0) & (0 < s)) | ((a == 0) & (0 < v)) {
        return Err(Refusal::BadAddress);
    }
    Ok(())
}

// "Finding tries 1, 2, 3, 4", and so does replacing before its own.
#[tactic(auto, unfolding(crate::specs::Found::lawful_find))]
pub fn lawful_find(item: &[u8], at: Address) -> Result<(), Refusal>
    ensures { told result ≡ lawful_find item.now at.a at.v at.s }
{
    lawful(item)?;
    lawful_address(at)
}

// The end of the piece that begins at a place: the first mark from `mark` on, in a short record byte by byte.
fn piece_end(item: &[u8], at: usize, mark: Mark) -> usize
    requires { at ≤ length item.now }
    ensures { result ≡ first_place mark.byte attribute_mark item.now at (length item.now) }
{
    let size = item.len();
    if size < SHORT {
        return first_within(item, at, size, mark.byte, Mark::ATTRIBUTE.byte);
    }
    far_within(&*item, at, size, mark.byte, Mark::ATTRIBUTE.byte)
}

// That piece, and the marks still to be made in front of it: three counts and no struct, as each caller makes them one by one.
#[tactic(auto, using(crate::proofs::Spots::spot_end))]
fn spot_at(item: &[u8], at: usize, mark: Mark, attributes: u64, values: u64, subvalues: u64) -> Spot
    requires { at ≤ length item.now }
    ensures { result ≡ spot_at mark.byte item.now at attributes values subvalues }
{
    Spot {
        start: at,
        end: piece_end(item, at, mark),
        attributes,
        values,
        subvalues,
    }
}

// Where attribute a begins, or is to be made, and by how many marks.
// Where a scan finds no further mark it stops at the end of the piece that holds it, and the scans below it stop there too.
// Not `pass` from 0, which was slower: with one caller `far_pass` is compiled into it, and each scan of a short record becomes a call.
fn attribute(item: &[u8], a: u64) -> Stop
    ensures value { result ≡ attribute item.now a }
    ensures at_in_bounds { result.at ≤ length item.now }
{
    if item.len() < SHORT {
        return skip(item, 0, Mark::ATTRIBUTE, a);
    }
    far_pass(&*item, 0, Mark::ATTRIBUTE, a)
}

// Inside the value that begins at a place: "s = 0 the whole value".
#[tactic(auto, unfolding(crate::specs::Scan::in_value))]
fn in_value(item: &[u8], attributes: u64, value: Stop, s: u64) -> Spot
    requires { value.at ≤ length item.now }
    ensures { result ≡ in_value item.now attributes value s }
{
    if s == 0 {
        return spot_at(item, value.at, Mark::VALUE, attributes, value.left, 0);
    }
    let subvalue = pass(item, value.at, Mark::SUBVALUE, s - 1);
    spot_at(
        item,
        subvalue.at,
        Mark::SUBVALUE,
        attributes,
        value.left,
        subvalue.left,
    )
}

// Inside the attribute that begins at a place: "v = 0 means the whole attribute".
#[tactic(auto, unfolding(crate::specs::Scan::in_attribute))]
fn in_attribute(item: &[u8], attribute: Stop, v: u64, s: u64) -> Spot
    requires { attribute.at ≤ length item.now }
    ensures { result ≡ in_attribute item.now attribute v s }
{
    if v == 0 {
        return spot_at(item, attribute.at, Mark::ATTRIBUTE, attribute.left, 0, 0);
    }
    let value = pass(item, attribute.at, Mark::VALUE, v - 1);
    in_value(item, attribute.left, value, s)
}

// The place of an address, found or to be made: the attribute, and then inside it.
#[tactic(auto, unfolding(crate::specs::Scan::spot))]
fn locate(item: &[u8], at: Address) -> Spot
    ensures { result ≡ spot item.now at.a at.v at.s }
{
    in_attribute(item, attribute(item, at.a), at.v, at.s)
}

// "The answer of finding is "found" or "missing"", without the tests.
#[tactic(auto, using(crate::proofs::Spots::lies, crate::proofs::Spots::found_spot, crate::proofs::Spots::missing_spot))]
fn place(item: &[u8], at: Address) -> Option<Span>
    ensures { result ≡ part_of (place item.now at.a at.v at.s) }
{
    let spot = locate(item, at);
    // Not `made`: this address may be untested, and the sum of what it names may wrap.
    if (spot.attributes == 0) & (spot.values == 0) & (spot.subvalues == 0) {
        return Some(Span {
            start: spot.start,
            len: spot.end - spot.start,
        });
    }
    None
}

// "Finding tries 1, 2, 3, 4."
#[tactic(auto, using(crate::proofs::Finding::find_refused, crate::proofs::Finding::find_place))]
pub fn find(item: &[u8], at: Address) -> Result<Option<Span>, Refusal>
    ensures { told result ≡ found_of (find item.now at.a at.v at.s) }
{
    lawful_find(item, at)?;
    Ok(place(item, at))
}

// The part of the record itself; an empty one where there is none.
fn cut<'a>(item: &'a [u8], part: Option<Span>) -> &'a [u8]
    requires { Within (length item.now) part }
    ensures bytes { result.now ≡ part_bytes item.now part }
    ensures there { result.ref_ptr ≡ part_there item.entry.ref_ptr part }
{
    let Some(Span { start, len }) = part else {
        return &item[0..0];
    };
    let end = start + len;
    &item[start..end]
}

// "extraction hands back that part of the record itself .. and an empty part when missing or refused"
pub fn extract<'a>(item: &'a [u8], at: Address) -> &'a [u8]
    ensures bytes { result.now ≡ extract (find item.now at.a at.v at.s) }
    ensures there { result.ref_ptr ≡ part_there item.entry.ref_ptr (part_in (find item.now at.a at.v at.s)) }
{
    cut(item, find(item, at).unwrap_or(None))
}

// What an address reads, missing as empty, without the tests: what loads into F.
pub fn part<'a>(item: &'a [u8], at: Address) -> &'a [u8]
    ensures bytes { result.now ≡ reads item.now (path at.a at.v at.s) }
    ensures there { result.ref_ptr ≡ part_there item.entry.ref_ptr (part_of (place item.now at.a at.v at.s)) }
{
    cut(item, place(item, at))
}

// Refusals 9 and 17 of the new bytes, then 3 where they are to be the id.
#[tactic(auto, unfolding(crate::specs::Planned::lawful_new, paper::specs::Sizes::entry_most))]
fn lawful_new(new: &[u8], a: u64) -> Result<(), Refusal>
    ensures { told result ≡ lawful_new new.now a }
{
    if Limit::ENTRY.most < new.len() {
        return Err(Refusal::OverLongEntry);
    }
    if lent::marked(new) {
        return Err(Refusal::MarkInElement);
    }
    if (a == 0) & (Limit::ID.most < new.len()) {
        return Err(Refusal::BadId);
    }
    Ok(())
}

impl Spot {
    // How many marks make a missing place.
    fn made(self) -> usize
        requires { made self < 2 ^ 64 }
        ensures { result ≡ made self }
    {
        self.attributes as usize + self.values as usize + self.subvalues as usize
    }

    // How long the record is after replacing. No sum wraps: each part is at most a record, an address or an element.
    fn changed_len(self, size: usize, count: usize) -> usize
        requires { Small size self count }
        ensures { result ≡ changed_length size self count }
    {
        self.start + self.made() + count + (size - self.end)
    }
}

// Refusals 1 and 16 of what would result.
fn sized(spot: Spot, total: usize, room: usize) -> Result<Plan, Refusal>
    ensures { told result ≡ sized_plan spot total room }
{
    if Limit::RECORD.most < total {
        return Err(Refusal::OverLongRecord);
    }
    if room < total {
        return Err(Refusal::ShortOutput);
    }
    Ok(Plan { spot, total })
}

// "Replacing: 1, 2, 3, 4, 9, 17, then 3 and 1 for what would result, then 16"
#[tactic(auto, using(crate::proofs::Replacing::plan_refused, crate::proofs::Replacing::plan_refused_new, crate::proofs::Replacing::plan_sized))]
fn prepare(item: &[u8], at: Address, new: &[u8], room: usize) -> Result<Plan, Refusal>
    ensures { told result ≡ planned (spot item.now at.a at.v at.s) (replace item.now at.a at.v at.s new.now room) }
{
    lawful_find(item, at)?;
    lawful_new(new, at.a)?;
    let spot = locate(item, at);
    let total = spot.changed_len(item.len(), new.len());
    sized(spot, total, room)
}

// The marks that make a missing place, as few as will do.
// Here and below `lent::fill` and `lent::copy_in`, not the slice's own: their contracts are laid end to end by the laws of `over`.
fn write_marks(out: &mut [u8], at: usize, spot: Spot)
    requires { at + made spot ≤ length out.old }
    ensures { out.new ≡ over out.old at (marks spot) }
{
    let attributes = spot.attributes as usize;
    let values = spot.values as usize;
    let subvalues = spot.subvalues as usize;
    lent::fill(out, at, attributes, Mark::ATTRIBUTE.byte);
    let next = at + attributes;
    lent::fill(out, next, values, Mark::VALUE.byte);
    let last = next + values;
    lent::fill(out, last, subvalues, Mark::SUBVALUE.byte);
}

// The record up to the spot, and the marks that make it: where the new bytes go.
fn write_front(item: &[u8], out: &mut [u8], spot: Spot) -> usize
    requires { (spot.start ≤ length item.now) × (spot.start + made spot ≤ length out.old) }
    ensures value { result ≡ spot.start + made spot }
    ensures out_after { out.new ≡ over out.old 0 (take spot.start item.now ++ marks spot) }
{
    let start = spot.start;
    lent::copy_in(&item[0..start], out, 0);
    write_marks(out, start, spot);
    start + spot.made()
}

// The new bytes, the rest of the record, and zeros to the end.
fn write_rest(new: &[u8], rest: &[u8], out: &mut [u8], at: usize)
    requires { at + length new.now + length rest.now ≤ length out.old }
    ensures { out.new ≡ over out.old at
        (new.now ++ rest.now ++ replicate (length out.old - (at + length new.now + length rest.now)) 0) }
{
    lent::copy_in(new, out, at);
    let next = at + new.len();
    lent::copy_in(rest, out, next);
    let total = next + rest.len();
    let left = out.len() - total;
    lent::fill(out, total, left, 0);
}

// The record after replacing, each byte copied once, and zeros behind it.
fn write(item: &[u8], new: &[u8], out: &mut [u8], spot: Spot)
    requires { (spot.start ≤ spot.end) × (spot.end ≤ length item.now)
        × (changed_length (length item.now) spot (length new.now) ≤ length out.old) }
    ensures { out.new ≡ buffer (length out.old) (changed item.now spot new.now) }
{
    let end = spot.end;
    let at = write_front(item, out, spot);
    write_rest(new, &item[end..], out, at);
}

// "Replacing writes a new record to the output."
#[tactic(auto, using(crate::proofs::Replacing::readied, crate::proofs::Replacing::zeros_answer))]
pub fn replace(item: &[u8], at: Address, new: &[u8], out: &mut [u8]) -> Result<usize, Refusal>
    ensures answers { told result ≡ sized (replace item.now at.a at.v at.s new.now (length out.old)) }
    ensures writes { out.new
        ≡ buffer (length out.old) (answer_of (replace item.now at.a at.v at.s new.now (length out.old))) }
{
    match prepare(item, at, new, out.len()) {
        Ok(Plan { spot, total }) => {
            write(item, new, out, spot);
            Ok(total)
        }
        Err(refusal) => {
            lent::clear(out);
            Err(refusal)
        }
    }
}
