// What an elm pushes: "A literal is read from the code string and an attribute from the record; neither is copied until it is pushed."
ghost use Rattle.std.specs.Prelude.{◌≡◌, []};
ghost use Rattle.paper.specs.Records.{reads};
ghost use Rattle.paper.specs.Steps.{load_path, operand};
ghost use Rattle.codes.specs.Meaning.{repeat_of, operand_of};
ghost use Rattle.steps.specs.Bounds.{OperandWithin};
ghost use Rattle.steps.specs.Stepping.{setting};

use crate::Position;
use codes::{Operand, Repeat};
use paper::Address;

// "`n` loads (n,v,s), `nR` loads (n,1,s), `nRR` loads (n,1,1); attribute 0 is always the id"
fn load<'a>(item: &'a [u8], number: u64, repeat: Repeat, at: Position) -> &'a [u8]
    ensures { result.now ≡ reads item.now (load_path number (repeat_of repeat) at.v at.s) }
{
    let (a, v, s) = match (number, repeat) {
        (0, _) => (0, 0, 0),
        (_, Repeat::Each) => (number, at.v, at.s),
        (_, Repeat::FirstValue) => (number, 1, at.s),
        (_, Repeat::FirstSubvalue) => (number, 1, 1),
    };
    records::part(item, Address { a, v, s })
}

// A part of the record or of the code; LPV, which stands in a slot, is empty here.
pub(crate) fn operand<'a>(item: &'a [u8], code: &'a [u8], o: Operand, at: Position) -> &'a [u8]
    requires { OperandWithin code.now o }
    ensures { result.now ≡ operand (setting item.now at []) (operand_of code.now o) }
{
    match o {
        Operand::Attribute { number, repeat } => load(item, number, repeat, at),
        Operand::Literal { start, len } => {
            let end = start + len;
            &code[start..end]
        }
        Operand::Previous => &code[0..0],
    }
}
