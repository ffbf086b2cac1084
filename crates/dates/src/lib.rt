// Document 01, "What each code gives" (D and typed dates): the calendar, what D prints of an element, and the day that a typed date names.
// Every contract is an equality with a definition of crates/paper/specs/Dates.antt or TypedDates.antt, for all inputs that it takes.
// Year and month of a day come from a division and one comparison; no loop runs over years or days.
#![tactic(auto)]

mod calendar;
pub mod printing;
pub mod typing;

// A date of the calendar.
#[derive(Clone, Copy)]
struct Date {
    year: u64,
    month: u64,
    day: u64,
}
