// The record of a walk in its two parts: what preparing fixes and what a walk moves. What each direction reads and sets in them, and
// when they fit. No function here asks anything of its arguments.
#![tactic(auto)]

mod fit;
mod kinds;

pub use fit::fits;
pub use kinds::{cursor, flags_of, moved, overlaps, plan};

// What a walk remembers of the window before: nothing where the needle's period is long, else a number for each direction.
#[derive(Clone, Copy)]
pub enum Memory {
    Long,
    Short { forward: usize, backward: usize },
}

// What kind of walk it is: that of the two way searcher, or that of an empty needle, with a flag for each direction: whether the next
// thing that it gives is a match. An empty walk reads and sets nothing but its lengths, its cursors and its flags.
#[derive(Clone, Copy)]
pub enum Kind {
    TwoWay,
    Empty {
        is_match_fw: bool,
        is_match_bw: bool,
    },
}

// What the kind of a walk is to its calls: whether it is the empty one, and its flags. A two way walk has none, and they read false.
#[derive(Clone, Copy)]
pub struct Flags {
    pub empty: bool,
    pub is_match_fw: bool,
    pub is_match_bw: bool,
}

// Which matches a walk lists: those that do not overlap, or every occurrence.
#[derive(Clone, Copy)]
pub enum Mode {
    NonOverlapping,
    Overlapping,
}

// What preparing fixes. No call of a walk changes it.
#[derive(Clone, Copy)]
pub struct Fixed {
    pub needle_len: usize,
    pub haystack_len: usize,
    pub mode: Mode,
    pub crit_pos: usize,
    pub crit_pos_back: usize,
    pub period: usize,
    pub byteset: u64,
}

// What a walk moves: where each direction stands, and what it remembers. Its kind stays what preparing made it.
#[derive(Clone, Copy)]
pub struct Moving {
    pub position: usize,
    pub end: usize,
    pub memory: Memory,
    pub kind: Kind,
}

// What a call cost: rounds and pairs of preparing, comparisons of needle with haystack, and tests of the fingerprint.
#[derive(Clone, Copy)]
pub struct Counts {
    pub preparing: usize,
    pub comparisons: usize,
    pub tests: usize,
}
