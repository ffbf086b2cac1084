// The F text so far, and its elms behind it.
ghost use Rattle.std.specs.Prelude.{◌≡◌, ◌∷◌, [], ◌+◌, ◌*◌, ◌<◌, ◌≤◌, length, take};
ghost use Rattle.paper.specs.Sizes.{code_most};
ghost use Rattle.paper.specs.Bytes.{ch};
ghost use Rattle.lent.specs.Over.{Laid};

use paper::Limit;

// Room for the F text of the longest A code: no byte of it is shown as more than three.
const ROOM: usize = 3 * Limit::CODE.most;

// A text in the front of its room.
#[derive(Drop)]
pub(crate) struct Text {
    bytes: [u8; ROOM],
    pub len: usize,
    // the array's type says it too: without it, that `sign` has room did not prove
    ghost whole: { length bytes ≡ 3 * code_most },
    ghost inside: { len ≤ length bytes },
}

impl Text {
    pub(crate) const EMPTY: Text = Text {
        bytes: [0; ROOM],
        len: 0,
    };

    // the bytes so far
    pub(crate) fn as_slice(&self) -> &[u8]
        ensures { result.now ≡ take self.now.len self.now.bytes }
    {
        &self.bytes[..self.len]
    }

    // one byte more
    pub(crate) fn push(&mut self, byte: u8)
        requires { self.old.len < length self.old.bytes }
        ensures { Laid (byte ∷ []) self.old.bytes self.new.len self.new.bytes self.old.len }
    {
        self.bytes[self.len] = byte;
        self.len += 1;
    }

    // `;` and an elm of one byte. Here and below the length is read and written once: each byte pushed by itself waited for the length of the one before.
    pub(crate) fn sign(&mut self, byte: u8)
        requires { self.old.len + 2 ≤ length self.old.bytes }
        ensures { Laid (ch ";" ∷ byte ∷ []) self.old.bytes self.new.len self.new.bytes self.old.len }
    {
        let at = self.len;
        self.bytes[at] = b';';
        self.bytes[at + 1] = byte;
        self.len = at + 2;
    }

    // `;` and an elm as it is spelt
    pub(crate) fn spell(&mut self, elm: &[u8])
        requires { self.old.len + 1 + length elm.now ≤ length self.old.bytes }
        ensures { Laid (ch ";" ∷ elm.now) self.old.bytes self.new.len self.new.bytes self.old.len }
    {
        let at = self.len;
        self.bytes[at] = b';';
        lent::copy_in(elm, &mut self.bytes, at + 1);
        self.len = at + 1 + elm.len();
    }
}
