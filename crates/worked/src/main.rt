// Runs the proved functions on four tables of cases, document 01's worked examples among them: a case a line of standard input, its fields parted by bars.
// A heading, `@ ` and a table's name, begins each table; the head of src/NAME.rt says what that table's cases are. A line with no bar says what the cases
// after it try, but in `checks`, where each line is a case. Every line is written as it stands, and behind a case what came of it.
// That the answers are right is proved of the crates below; this shows them, and what it writes is compared with a stored text.
#![tactic(auto)]

mod checks;
mod days;
mod places;
mod runs;
mod showing;

use cases::lines::{record_room, spelled_field};
use cases::{field, first_byte};
use std::io;
use std::io::Write;
use streams::READS;

#[derive(Clone, Copy)]
enum Table {
    Checks,
    Days,
    Places,
    Runs,
}

impl Table {
    // A table is told by its name's first byte.
    fn named(name: &[u8]) -> Table {
        match first_byte(name) {
            b'c' => Table::Checks,
            b'd' => Table::Days,
            b'p' => Table::Places,
            _ => Table::Runs,
        }
    }
}

// The record in field 2: room for one that is a byte too long. Not compiled into its caller, so that a table without records takes no stack for one.
#[inline(never)]
fn show_spelled<W: Write>(out: &mut W, line: &[u8], table: Table) -> io::Result<()> {
    let mut item = record_room();
    let n = spelled_field(line, 2, true, &mut item);
    match table {
        Table::Places => places::show(out, line, &item[..n]),
        _ => runs::show(out, line, &item[..n]),
    }
}

fn show_answer<W: Write>(out: &mut W, line: &[u8], table: Table) -> io::Result<()> {
    let case = lent::some_within(line, b'|', b'|');
    match table {
        Table::Checks => checks::show(out, line),
        Table::Days if case => days::show(out, line),
        _ if case => show_spelled(out, line, table),
        _ => Ok(()),
    }
}

// Shows a line and what came of it; the table that the next line belongs to.
fn show_line<W: Write>(out: &mut W, line: &[u8], table: Table) -> io::Result<Table> {
    out.write_all(line)?;
    let mut next = table;
    if first_byte(line) == b'@' {
        next = Table::named(field(line, 1, b' '));
    } else {
        show_answer(out, line, table)?;
    }
    out.write_all(b"\n")?;
    Ok(next)
}

// Each line ends at byte 10, the last one also without it.
fn show_lines<W: Write>(out: &mut W, text: &[u8]) -> io::Result<()> {
    let mut table = Table::Runs;
    // A counted place: a line ends where the scan of `lent` stops, as everywhere.
    let mut at = 0;
    while at < text.len() {
        let end = lent::place_of(text, at, b'\n');
        table = show_line(out, &text[at..end], table)?;
        at = end + 1;
    }
    Ok(())
}

fn main(rt: HostRuntime) -> io::Result<()> {
    let mut buffer = [0u8; READS];
    let count = streams::read_full(&mut rt.stdin(), &mut buffer)?;
    show_lines(&mut io::writer(&rt), &buffer[..count])
}
