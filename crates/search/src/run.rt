// Windows until there is an answer: a match, a part passed without one (where a step asks for that), or no room for a further window.
// Each function here serves both directions.
ghost use Rattle.std.specs.Prelude.{◌≡◌, ◌+◌, ◌*◌, ◌^◌, ◌<◌, ◌≤◌, length, IsTrue};
ghost use Rattle.search.specs.Code.{searched_from, has_room, window_at, far_end, StopFits, Room, Start};

use crate::window::window;
use windows::{Cursor, Plan, Searched, Stop};

fn ended(stop: Stop, cursor: Cursor, comparisons: usize, tests: usize) -> Searched
    ensures { result ≡ record { stop = stop; cursor = cursor; comparisons = comparisons; tests = tests } }
{
    Searched {
        stop,
        cursor,
        comparisons,
        tests,
    }
}

// Whether there is room for a window. Backward its start wraps where there is none, and is then past any haystack.
fn has_room<const BACKWARD: bool>(at: usize, m: usize, n: usize) -> bool
    requires some { 0 < m }
    requires small { m < 2 ^ 63 }
    requires within { at ≤ n }
    requires haystack { 4 * n < 2 ^ 63 }
    ensures rule { result ≡ has_room BACKWARD at m n }
    ensures room { IsTrue result → Room BACKWARD at m n }
{
    if BACKWARD {
        at.wrapping_sub(m) < n
    } else {
        at + (m - 1) < n
    }
}

// Where the window starts, which has room.
fn window_at<const BACKWARD: bool>(at: usize, m: usize, n: usize) -> usize
    requires room { Room BACKWARD at m n }
    requires within { at ≤ n }
    ensures rule { result ≡ window_at BACKWARD at m }
    ensures inside { result + m ≤ n }
{
    if BACKWARD { at - m } else { at }
}

// The end of the haystack that a walk goes to.
pub(crate) fn far_end<const BACKWARD: bool>(n: usize) -> usize
    ensures { result ≡ far_end BACKWARD n }
{
    if BACKWARD { 0 } else { n }
}

pub(crate) fn search<const BACKWARD: bool>(
    haystack: &[u8],
    needle: &[u8],
    set: u64,
    v: Plan,
    start: Cursor,
    stepping: bool,
) -> Searched
    requires { Start BACKWARD (length needle.now) (length haystack.now) v start }
    ensures rule { result ≡ searched_from BACKWARD stepping set v needle.now haystack.now start }
    ensures stop { StopFits (length needle.now) result.stop }
{
    let n = haystack.len();
    let m = needle.len();
    let mut s = start;
    let mut comparisons: usize = 0;
    let mut tests: usize = 0;
    while has_room::<BACKWARD>(s.at, m, n) {
        if stepping && s.at != start.at {
            return ended(Stop::Passed, s, comparisons, tests);
        }
        let place = window_at::<BACKWARD>(s.at, m, n);
        let w = window::<BACKWARD>(haystack, needle, set, v, s);
        comparisons += w.comparisons;
        tests += 1;
        s = w.next;
        if w.matched {
            return ended(Stop::Hit(place), s, comparisons, tests);
        }
    }
    let end = Cursor {
        at: far_end::<BACKWARD>(n),
        ..s
    };
    ended(Stop::Out, end, comparisons, tests)
}
