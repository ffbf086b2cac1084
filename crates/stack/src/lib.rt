// The stack in the lent scratch, and the end of a step: what it costs, or why it is refused, and what it leaves (document 01, "Steps").
// A step answers its cost or its refusal, and nothing is written before its own refusal and the budget's are known.
#![tactic(auto)]

pub mod charging;
pub mod slots;

// One step: its cost, and the entries then held.
#[derive(Clone, Copy)]
pub struct Step {
    pub cost: u64,
    pub held: usize,
}
