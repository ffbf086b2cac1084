// The machine: the elms of one code, one code, one element through all codes, each step counted within the budget (document 01, "Steps").
// A run answers the steps then counted, or its refusal and the steps counted before it; its answer stands in the element's slot.
// Every statement is an equality with the run that crates/paper defines.
#![tactic(auto)]

pub mod running;

use paper::Refusal;
use steps::Position;

// The budget, and the steps counted so far.
#[derive(Clone, Copy)]
pub struct Meter {
    pub budget: u64,
    pub steps: u64,
}

// Where an element's run stands: at the element's own position, with so many steps counted.
#[derive(Clone, Copy)]
pub struct Standing {
    pub place: Position,
    pub meter: Meter,
}

// Why a run of several steps stopped: the refusal, and the steps counted before it.
#[derive(Clone, Copy)]
pub struct Stopped {
    pub refusal: Refusal,
    pub steps: u64,
}

// What a run of elms comes to: the entries then held and the steps then counted.
#[derive(Clone, Copy)]
pub(crate) struct Stretch {
    pub held: usize,
    pub steps: u64,
}
