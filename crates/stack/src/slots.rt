// The stack in the lent scratch: slot k begins at k entries, its length stands in `lens`.
ghost use Rattle.std.specs.Prelude.{◌≡◌, ◌+◌, ◌≤◌, ◌<◌, length, replicate};
ghost use Rattle.paper.specs.Sizes.{entry_most, stack_most, scratch_least};
ghost use Rattle.stack.specs.Slots.{slots, Slotted, entry_at, put_in, put_length, exchanged, exchanged_lengths};

use paper::Limit;

// Slots: the stack's entries, the element on its way through the codes, and one to spare.
pub const ELEMENT: usize = Limit::STACK.most;

pub const SPARE: usize = ELEMENT + 1;

pub const SLOTS: usize = SPARE + 1;

// The scratch that is lent, and the length of each slot in it: none is over the limit.
#[derive(Drop)]
pub struct Slots<'a> {
    pub scratch: &'a mut [u8],
    pub lens: [usize; SLOTS],
    pub ghost slotted: { Slotted scratch.now lens },
}

impl<'a> Slots<'a> {
    // A lent scratch as it is, with every slot empty.
    pub fn over(scratch: &'a mut [u8]) -> Slots<'a>
        requires { scratch_least ≤ length scratch.old }
        ensures scratch_kept { result.scratch.now ≡ scratch.old }
        ensures lens_zero { result.lens ≡ replicate slots 0 }
    {
        Slots {
            scratch,
            lens: [0; SLOTS],
        }
    }

    // What slot k holds, as a part of the scratch.
    pub fn entry(&self, k: usize) -> &[u8]
        requires { k < slots }
        ensures { result.now ≡ entry_at self.now.scratch.now self.now.lens k }
    {
        let from = k * Limit::ENTRY.most;
        let to = from + self.lens[k];
        &self.scratch[from..to]
    }

    // Bytes into slot k.
    pub fn put(&mut self, src: &[u8], k: usize)
        requires { (k < slots) × (length src.now ≤ entry_most) }
        ensures scratch_after { self.new.scratch.now ≡ put_in self.old.scratch.now k src.now }
        ensures lens_after { self.new.lens ≡ put_length self.old.lens k src.now }
    {
        lent::copy_in(src, self.scratch, k * Limit::ENTRY.most);
        self.lens[k] = src.len();
    }

    // What one slot holds into another.
    pub fn copy(&mut self, from: usize, to: usize)
        requires { (from < slots) × (to < slots) }
        ensures scratch_after { self.new.scratch.now ≡ put_in self.old.scratch.now to (entry_at self.old.scratch.now self.old.lens from) }
        ensures lens_after { self.new.lens ≡ put_length self.old.lens to (entry_at self.old.scratch.now self.old.lens from) }
    {
        let count = self.lens[from];
        lent::copy_within(
            self.scratch,
            from * Limit::ENTRY.most,
            to * Limit::ENTRY.most,
            count,
        );
        self.lens[to] = count;
    }

    // What slots k and k + 1 hold, the one into the other, by way of the spare slot.
    pub(crate) fn exchange(&mut self, k: usize)
        requires { k + 1 < stack_most }
        ensures scratch_after { self.new.scratch.now ≡ exchanged self.old.scratch.now self.old.lens k }
        ensures lens_after { self.new.lens ≡ exchanged_lengths self.old.scratch.now self.old.lens k }
    {
        self.copy(k, SPARE);
        self.copy(k + 1, k);
        self.copy(SPARE, k + 1);
    }
}
