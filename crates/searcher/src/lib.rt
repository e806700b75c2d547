// The two way searcher: preparing, and walks in both directions, those of an empty needle too.
#![tactic(auto)]

ghost use Rattle.std.specs.Prelude.{◌≡◌};
ghost use Rattle.limits.specs.Said.{said};
ghost use Rattle.record.specs.Fits.{fits};
ghost use Rattle.searcher.specs.Walk.{step_said, told, stepped_told, new_rule, NoWalk, step_answer, match_answer, called_of, next_rule, next_back_rule, next_match_rule, next_match_back_rule};

use limits::Refusal;
pub use record::{Counts, Fixed, Kind, Memory, Mode, Moving};
use search::{Ending, Walked};

// The state of a walk: what preparing fixed, and what the calls move. It goes into a call by value and comes back in its answer.
#[derive(Clone, Copy)]
pub struct TwoWaySearcher {
    pub fixed: Fixed,
    pub moving: Moving,
}

// What a call hands back: its answer, the state that follows it, and what it cost. Where preparing refuses, `walk` is no state.
#[derive(Clone, Copy)]
pub struct Called<A> {
    pub answer: Result<A, Refusal>,
    pub walk: TwoWaySearcher,
    pub counts: Counts,
}

// What one step gives: the part of the haystack that it settled, or that there is nothing left.
#[derive(Clone, Copy)]
pub enum Step {
    Match(usize, usize),
    Reject(usize, usize),
    Done,
}

// Preparing gives the state alone, and a next match both ends of the match, or none.
pub type Prepared = Called<()>;

pub type Stepped = Called<Step>;

pub type Matched = Called<Option<(usize, usize)>>;

// What a call came to, as a step, whose Reject reaches from `low` to `high`, and as a next match.
fn step_answer(ending: Result<Ending, Refusal>, low: usize, high: usize) -> Result<Step, Refusal>
    ensures { step_said result ≡ step_answer ending low high }
{
    Ok(match ending? {
        Ending::Done => Step::Done,
        Ending::Match(a, b) => Step::Match(a, b),
        Ending::Passed | Ending::Out => Step::Reject(low, high),
    })
}

fn match_answer(ending: Result<Ending, Refusal>) -> Result<Option<(usize, usize)>, Refusal>
    ensures { said result ≡ match_answer ending }
{
    Ok(match ending? {
        Ending::Match(a, b) => Some((a, b)),
        Ending::Done | Ending::Passed | Ending::Out => None,
    })
}

// What a call came to, as it is handed back, with the part of the state that no call changes.
fn called_of<A: Copy>(fixed: Fixed, called: Walked, answer: Result<A, Refusal>) -> Called<A>
    ensures { result ≡ called_of fixed called answer }
{
    Called {
        answer,
        walk: TwoWaySearcher {
            fixed,
            moving: called.moving,
        },
        counts: called.counts,
    }
}

impl TwoWaySearcher {
    // Prepares a walk for a needle in a haystack of `end` bytes. Its mode says whether next matches may overlap; no call changes it.
    // Where preparing refuses, what stands in `walk` fits nothing (`NoWalk`).
    pub fn new(needle: &[u8], end: usize, mode: Mode) -> Prepared
        ensures rule { told result ≡ new_rule needle.now «end» mode }
        ensures meaning { NoWalk (told result) }
    {
        let parts = prepare::prepare(needle, end, mode);
        Called {
            answer: parts.answer,
            walk: TwoWaySearcher {
                fixed: parts.fixed,
                moving: parts.moving,
            },
            counts: parts.counts,
        }
    }

    // Whether a state fits a needle and a haystack.
    pub fn fits(self, haystack: &[u8], needle: &[u8]) -> bool
        ensures { result ≡ fits needle.now haystack.now self.fixed self.moving }
    {
        record::fits(haystack, needle, self.fixed, self.moving)
    }

    // One step forward: the next part of the haystack that is a match, or in which none starts (`NextMeans`). A walk whose matches may
    // overlap refuses steps.
    // What the four calls mean is said of states reached from preparing with the same bytes, so it stands above them: `demand_2` of the
    // crate demands proves it of each by the name that is given here, with what the matches of any mix of calls come to.
    pub fn next(self, haystack: &[u8], needle: &[u8]) -> Stepped
        ensures { stepped_told result ≡ next_rule needle.now haystack.now self }
    {
        let Self { fixed, moving } = self;
        let called = search::forward(haystack, needle, fixed, moving, true);
        let answer = step_answer(called.ending, moving.position, called.moving.position);
        called_of(fixed, called, answer)
    }

    // One step backward: the part before `end` that is a match, or in which none ends (`NextBackMeans`).
    pub fn next_back(self, haystack: &[u8], needle: &[u8]) -> Stepped
        ensures { stepped_told result ≡ next_back_rule needle.now haystack.now self }
    {
        let Self { fixed, moving } = self;
        let called = search::backward(haystack, needle, fixed, moving, true);
        let answer = step_answer(called.ending, called.moving.end, moving.end);
        called_of(fixed, called, answer)
    }

    // The next match forward: the least occurrence that is still to be given, from `position` on, or nothing exactly if there is none
    // (`NextMatchMeans`).
    pub fn next_match(self, haystack: &[u8], needle: &[u8]) -> Matched
        ensures { told result ≡ next_match_rule needle.now haystack.now self }
    {
        let Self { fixed, moving } = self;
        let called = search::forward(haystack, needle, fixed, moving, false);
        called_of(fixed, called, match_answer(called.ending))
    }

    // The next match backward: the greatest occurrence that is still to be given, that ends at `end` or before it, or nothing exactly
    // if there is none (`NextMatchBackMeans`).
    pub fn next_match_back(self, haystack: &[u8], needle: &[u8]) -> Matched
        ensures { told result ≡ next_match_back_rule needle.now haystack.now self }
    {
        let Self { fixed, moving } = self;
        let called = search::backward(haystack, needle, fixed, moving, false);
        called_of(fixed, called, match_answer(called.ending))
    }
}
