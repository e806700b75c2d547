// Taking a walk on in one direction: the checks, and then windows until there is an answer.
#![tactic(auto)]

mod letters;
mod run;
mod turns;
mod window;

ghost use Rattle.std.specs.Prelude.{◌≡◌};
ghost use Rattle.search.specs.Calls.{step_check, refusal, free, ending_of, forward_call, backward_call};
ghost use Rattle.search.specs.Code.{StopFits, TwoWayStart, two_way, call};

use limits::Refusal;
use record::{Counts, Fixed, Mode, Moving};
use windows::Stop;

// What a call that is not refused comes to: a step finds nothing left, a match, a part passed without one, or no room for a further
// window.
#[derive(Clone, Copy)]
pub enum Ending {
    Done,
    Match(usize, usize),
    Passed,
    Out,
}

// What a call found, where the walk stands after it, and what it cost.
#[derive(Clone, Copy)]
pub struct Walked {
    pub ending: Result<Ending, Refusal>,
    pub moving: Moving,
    pub counts: Counts,
}

// Check 5: a step covers the haystack part by part, which matches that overlap do not.
fn check_step(stepping: bool, mode: Mode) -> Result<(), Refusal>
    ensures { result ≡ step_check stepping mode }
{
    if stepping && record::overlaps(mode) {
        return Err(Refusal::StepOverlapping);
    }
    Ok(())
}

// Checks 1, 2, 4 and 5: the first that refuses the call, if one does.
#[tactic(auto, unfolding(crate::specs::Calls::refusal, record::specs::Fits::fitting))]
fn check(
    haystack: &[u8],
    needle: &[u8],
    fixed: Fixed,
    moving: Moving,
    stepping: bool,
) -> Result<(), Refusal>
    ensures { result ≡ refusal stepping needle.now haystack.now fixed moving }
{
    limits::check_lengths(haystack.len(), needle.len())?;
    if !record::fits(haystack, needle, fixed, moving) {
        return Err(Refusal::StateDoesNotFit);
    }
    check_step(stepping, fixed.mode)
}

// A call that costs nothing, and the walk as it then stands.
pub(crate) fn free(ending: Result<Ending, Refusal>, moving: Moving) -> Walked
    ensures { result ≡ free ending moving }
{
    Walked {
        ending,
        moving,
        counts: Counts {
            preparing: 0,
            comparisons: 0,
            tests: 0,
        },
    }
}

fn ending_of(m: usize, stop: Stop) -> Ending
    requires { StopFits m stop }
    ensures { result ≡ ending_of m stop }
{
    match stop {
        Stop::Hit(k) => Ending::Match(k, k + m),
        Stop::Passed => Ending::Passed,
        Stop::Out => Ending::Out,
    }
}

// A two way walk taken on. The numbers are taken out of the record once, and put back once.
fn two_way<const BACKWARD: bool>(
    haystack: &[u8],
    needle: &[u8],
    fixed: Fixed,
    moving: Moving,
    stepping: bool,
) -> Walked
    requires { TwoWayStart needle.now haystack.now fixed moving }
    ensures { result ≡ two_way BACKWARD stepping needle.now haystack.now fixed moving }
{
    let m = needle.len();
    let start = record::cursor::<BACKWARD>(m, moving);
    let end = run::far_end::<BACKWARD>(haystack.len());
    if stepping && start.at == end {
        return free(Ok(Ending::Done), moving);
    }
    let v = record::plan::<BACKWARD>(m, fixed, moving.memory);
    let r = run::search::<BACKWARD>(haystack, needle, fixed.byteset, v, start, stepping);
    Walked {
        ending: Ok(ending_of(m, r.stop)),
        moving: record::moved::<BACKWARD>(moving, r.cursor),
        counts: Counts {
            preparing: 0,
            comparisons: r.comparisons,
            tests: r.tests,
        },
    }
}

// What both calls are: the checks, and then a walk of either kind.
fn walk<const BACKWARD: bool>(
    haystack: &[u8],
    needle: &[u8],
    fixed: Fixed,
    moving: Moving,
    stepping: bool,
) -> Walked
    ensures { result ≡ call BACKWARD stepping needle.now haystack.now fixed moving }
{
    if let Err(why) = check(haystack, needle, fixed, moving, stepping) {
        return free(Err(why), moving);
    }
    let flags = record::flags_of(moving.kind);
    if flags.empty {
        return turns::turn::<BACKWARD>(haystack.len(), moving, flags, stepping);
    }
    two_way::<BACKWARD>(haystack, needle, fixed, moving, stepping)
}

// A walk taken on forward, by one step (`stepping`) or to the next match.
pub fn forward(
    haystack: &[u8],
    needle: &[u8],
    fixed: Fixed,
    moving: Moving,
    stepping: bool,
) -> Walked
    ensures { result ≡ forward_call stepping needle.now haystack.now fixed moving }
{
    walk::<false>(haystack, needle, fixed, moving, stepping)
}

// The same backward.
pub fn backward(
    haystack: &[u8],
    needle: &[u8],
    fixed: Fixed,
    moving: Moving,
    stepping: bool,
) -> Walked
    ensures { result ≡ backward_call stepping needle.now haystack.now fixed moving }
{
    walk::<true>(haystack, needle, fixed, moving, stepping)
}
