// The calls that take a walk on.
ghost use Rattle.std.specs.Prelude.{◌≡◌};
ghost use Rattle.walk.specs.Answers.{Tells, told_said, call_said, call_of, IsFrontShort};

use crate::front::Front;
use searcher::{Called, Counts, TwoWaySearcher};

#[derive(Clone, Copy)]
pub(crate) enum Call {
    Step,
    StepBack,
    Next,
    NextBack,
}

// What a call answers, with its counts, and the walk behind it.
#[derive(Clone, Copy)]
pub(crate) struct Told {
    pub(crate) front: Front,
    pub(crate) walk: TwoWaySearcher,
    pub(crate) counts: Counts,
}

fn tell<A: Into<Front>>(called: Called<A>) -> Told
    ensures { Tells A.converts called result }
{
    Told {
        front: Front::of(called.answer),
        walk: called.walk,
        counts: called.counts,
    }
}

impl Call {
    // The call of a script's letter: `f`, `b`, `F`, or else `B`.
    pub(crate) fn of_letter(letter: u8) -> Call
        ensures { result ≡ call_of letter }
    {
        match letter {
            b'f' => Call::Step,
            b'b' => Call::StepBack,
            b'F' => Call::Next,
            _ => Call::NextBack,
        }
    }

    #[tactic(auto, using(crate::proofs::Laws::step_told, crate::proofs::Laws::match_told, crate::proofs::Laws::step_short), unfolding(crate::specs::Answers::call_said))]
    pub(crate) fn make(self, walk: TwoWaySearcher, haystack: &[u8], needle: &[u8]) -> Told
        ensures rule { told_said result ≡ call_said self walk haystack.now needle.now }
        ensures bound { IsFrontShort result.front }
    {
        match self {
            Call::Step => tell(walk.next(haystack, needle)),
            Call::StepBack => tell(walk.next_back(haystack, needle)),
            Call::Next => tell(walk.next_match(haystack, needle)),
            Call::NextBack => tell(walk.next_match_back(haystack, needle)),
        }
    }
}
