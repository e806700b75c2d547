// What an answer begins with.
ghost use Rattle.std.specs.Prelude.{◌≡◌, Some, MatchResult};
ghost use Rattle.walk.specs.Answers.{front_text, IsFrontShort, step_front, match_front, place_front};

use limits::Refusal;
use searcher::Step;
use std::fmt;

#[derive(Clone, Copy)]
pub(crate) enum Front {
    Nothing,
    Done,
    At(usize),
    Match(usize, usize),
    Reject(usize, usize),
    Refused(Refusal),
}

impl Front {
    // An answer's front, whatever it gives.
    pub(crate) fn of<A: Into<Front>>(answer: Result<A, Refusal>) -> Front
        ensures { MatchResult answer (λ given. A.converts given result) (λ why. result ≡ Front.Refused why) }
    {
        match answer {
            Ok(given) => given.into(),
            Err(why) => Front::Refused(why),
        }
    }
}

impl From<Step> for Front {
    ghost from_gives = { λ step front. (front ≡ step_front step) × IsFrontShort front };

    #[tactic(auto, using(crate::proofs::Laws::at_size, crate::proofs::Laws::match_size, crate::proofs::Laws::reject_size))]
    fn from(step: Step) -> Front {
        match step {
            Step::Match(a, b) => Front::Match(a, b),
            Step::Reject(a, b) => Front::Reject(a, b),
            Step::Done => Front::Done,
        }
    }
}

impl From<Option<(usize, usize)>> for Front {
    ghost from_gives = { λ found front. (front ≡ match_front found) × IsFrontShort front };

    #[tactic(auto, using(crate::proofs::Laws::at_size, crate::proofs::Laws::match_size, crate::proofs::Laws::reject_size))]
    fn from(found: Option<(usize, usize)>) -> Front {
        match found {
            Some((a, b)) => Front::Match(a, b),
            None => Front::Nothing,
        }
    }
}

impl From<Option<usize>> for Front {
    ghost from_gives = { λ place front. (front ≡ place_front place) × IsFrontShort front };

    #[tactic(auto, using(crate::proofs::Laws::at_size, crate::proofs::Laws::match_size, crate::proofs::Laws::reject_size))]
    fn from(place: Option<usize>) -> Front {
        match place {
            Some(k) => Front::At(k),
            None => Front::Nothing,
        }
    }
}

impl fmt::Display for Front {
    ghost output = { λ front. Some (front_text front) };

    fn fmt<W: fmt::Write>(&self, f: &mut fmt::Formatter<W>) -> fmt::Result {
        match self {
            Front::Nothing => f.write_str("none"),
            Front::Done => f.write_str("done"),
            Front::At(k) => write!(f, "at:{k}"),
            Front::Match(a, b) => write!(f, "match:{a}:{b}"),
            Front::Reject(a, b) => write!(f, "reject:{a}:{b}"),
            Front::Refused(why) => write!(f, "ref:{}", limits::number(*why)),
        }
    }
}
