// One step of an F code (document 01, "Steps").
// Every statement is an equality with what crates/paper defines of the step.
#![tactic(auto)]

mod loading;
pub mod stepping;

// The position of an element in its attribute: the value and the subvalue that a load in step with it reads.
#[derive(Clone, Copy)]
pub struct Position {
    pub v: u64,
    pub s: u64,
}
