// Parts of an element: what stands in front of a place or behind it, and its fields.
ghost use Rattle.std.specs.Prelude.{◌≡◌, pred, [], length, drop, if◌then◌else◌};
ghost use Rattle.paper.specs.Bytes.{within};
ghost use Rattle.texts.specs.Scans.{field_end, fields_after, first_fields};

// A place counted from 1 as one counted from 0.
pub(crate) fn index(start: u64) -> u64
    ensures { result ≡ pred start }
{
    start.saturating_sub(1)
}

// What follows the first `skip` bytes.
pub(crate) fn after(e: &[u8], skip: u64) -> &[u8]
    ensures { result.now ≡ drop skip e.now }
{
    &e[e.len().min(skip as usize)..]
}

// Where the field ends that has `fields` others before it.
fn end_of_field(e: &[u8], separator: u8, fields: u64) -> usize
    ensures { result ≡ field_end separator fields e.now }
{
    // A loop that counts the separators down: `enumerate`, `filter` and `nth` in its place need a proof that the n-th kept item ends the field.
    let mut left = fields;
    for (i, &b) in e.iter().enumerate() {
        if b == separator {
            if left == 0 {
                return i;
            }
            left -= 1;
        }
    }
    e.len()
}

// What follows `skip` fields and their separators.
#[tactic(auto, unfolding(crate::specs::Scans::fields_after), using(crate::proofs::Fields::skipping))]
pub(crate) fn skip_fields(e: &[u8], separator: u8, skip: u64) -> &[u8]
    ensures { result.now ≡ fields_after separator skip e.now }
{
    if skip == 0 {
        return e;
    }
    let end = end_of_field(e, separator, skip - 1) as u64;
    after(e, end + 1)
}

// The first `count` fields with the separators between them.
#[tactic(auto, unfolding(crate::specs::Scans::first_fields), using(crate::proofs::Fields::takes_some))]
pub(crate) fn take_fields(e: &[u8], separator: u8, count: u64) -> &[u8]
    ensures { result.now ≡ first_fields separator count e.now }
{
    if count == 0 {
        return &[];
    }
    lent::front(e, end_of_field(e, separator, count - 1))
}

// The element if its length is asked for, else nothing.
pub(crate) fn admitted(e: &[u8], least: u64, most: u64) -> &[u8]
    ensures { result.now ≡ if within least most (length e.now) then e.now else [] }
{
    let n = e.len() as u64;
    if (least <= n) & (n <= most) { e } else { &[] }
}
