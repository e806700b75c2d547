// An empty walk taken on: one of its sides is turned, and the other direction's cursor and flag stay. It costs nothing.
ghost use Rattle.std.specs.Prelude.{◌≡◌, ◌≤◌};
ghost use Rattle.search.specs.Calls.{turn_ending};
ghost use Rattle.search.specs.Code.{side_of, empty_way};

use crate::{Ending, Walked, free};
use empty::{Gives, Side};
use record::{Flags, Kind, Moving};

// What a side gives, where it stands at `at` after that.
fn ending_of(gives: Gives, at: usize) -> Ending
    ensures { result ≡ turn_ending gives at }
{
    match gives {
        Gives::Match => Ending::Match(at, at),
        Gives::Reject => Ending::Passed,
        Gives::Nothing => Ending::Done,
    }
}

// The side of a direction. Forward the bytes ahead are those from `position` on, backward those before `end`.
fn side_of<const BACKWARD: bool>(n: usize, moving: Moving, flags: Flags) -> Side
    requires { moving.position ≤ n }
    ensures { result ≡ side_of BACKWARD n moving flags }
{
    if BACKWARD {
        Side {
            ahead: moving.end,
            is_match: flags.is_match_bw,
        }
    } else {
        Side {
            ahead: n - moving.position,
            is_match: flags.is_match_fw,
        }
    }
}

#[tactic(auto, using(empty::proofs::Laws::turned_ahead))]
pub(crate) fn turn<const BACKWARD: bool>(
    n: usize,
    moving: Moving,
    flags: Flags,
    stepping: bool,
) -> Walked
    requires { moving.position ≤ n }
    ensures { result ≡ empty_way BACKWARD stepping n moving flags }
{
    let r = empty::turn(side_of::<BACKWARD>(n, moving, flags), stepping);
    if BACKWARD {
        let end = r.side.ahead;
        let kind = Kind::Empty {
            is_match_fw: flags.is_match_fw,
            is_match_bw: r.side.is_match,
        };
        let moved = Moving {
            end,
            kind,
            ..moving
        };
        free(Ok(ending_of(r.gives, end)), moved)
    } else {
        let position = n - r.side.ahead;
        let kind = Kind::Empty {
            is_match_fw: r.side.is_match,
            is_match_bw: flags.is_match_bw,
        };
        let moved = Moving {
            position,
            kind,
            ..moving
        };
        free(Ok(ending_of(r.gives, position)), moved)
    }
}
