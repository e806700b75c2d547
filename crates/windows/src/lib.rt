// The records that a walk's code and its rules share. The rules, one direction at a time, are in specs/.
#![tactic(auto)]

// What a walk in one direction goes by and never changes.
#[derive(Clone, Copy)]
pub struct Plan {
    // c forward, b backward
    pub split: usize,
    // how far a difference in the part that is compared second moves,
    pub period: usize,
    // and the memory that it sets
    pub period_memory: usize,
    // how far a match moves,
    pub shift: usize,
    // and the memory that it sets
    pub shift_memory: usize,
}

// Where a walk in one direction stands: `position` or `end`, and that direction's memory.
#[derive(Clone, Copy)]
pub struct Cursor {
    pub at: usize,
    pub memory: usize,
}

// What a window comes to: whether it is a match, where the walk stands then, and how many comparisons were made.
#[derive(Clone, Copy)]
pub struct Outcome {
    pub matched: bool,
    pub next: Cursor,
    pub comparisons: usize,
}

// Why a search ends: a match that starts at the number given, a middle Reject, or no room for a further window.
#[derive(Clone, Copy)]
pub enum Stop {
    Hit(usize),
    Passed,
    Out,
}

// What a search ends with. A Reject reaches from the cursor at the call to this one.
#[derive(Clone, Copy)]
pub struct Searched {
    pub stop: Stop,
    pub cursor: Cursor,
    pub comparisons: usize,
    pub tests: usize,
}
