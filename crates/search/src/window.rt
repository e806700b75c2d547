// One window of a walk, on numbers.
ghost use Rattle.std.specs.Prelude.{◌≡◌, ◌<◌, true, false, length};
ghost use Rattle.words.specs.Word.{front};
ghost use Rattle.byteset.specs.Fingerprint.{has};
ghost use Rattle.windows.specs.Window.{outcome, forward_window, backward_window};
ghost use Rattle.search.specs.Code.{window_of, Opens};

use crate::letters;
use windows::{Cursor, Outcome, Plan};

// Whether the letter at an index may be one of the needle's.
fn may_have(set: u64, haystack: &[u8], i: usize) -> bool
    requires { i < length haystack.now }
    ensures { result ≡ has set ((front haystack.now).letter i) }
{
    byteset::byteset_contains(set, letters::letter(haystack, i))
}

fn comes_to(matched: bool, at: usize, memory: usize, comparisons: usize) -> Outcome
    ensures { result ≡ outcome matched at memory comparisons }
{
    Outcome {
        matched,
        next: Cursor { at, memory },
        comparisons,
    }
}

#[tactic(auto, unfolding(windows::specs::Window::forward_window))]
fn forward_window(haystack: &[u8], needle: &[u8], set: u64, v: Plan, s: Cursor) -> Outcome
    requires { Opens false (length needle.now) (length haystack.now) v s }
    ensures { result ≡ forward_window (has set) v (front needle.now) (front haystack.now) s }
{
    let m = needle.len();
    if !may_have(set, haystack, s.at + (m - 1)) {
        return comes_to(false, s.at + m, 0, 0);
    }
    let from = number::larger(v.split, s.memory);
    let i = letters::first_up(haystack, needle, s.at, from, m);
    if i < m {
        return comes_to(false, s.at + (i - v.split + 1), 0, i + 1 - from);
    }
    let low = from - s.memory;
    let agreed = letters::agree_down(haystack, needle, s.at, v.split, s.memory);
    if agreed < low {
        return comes_to(
            false,
            s.at + v.period,
            v.period_memory,
            m - from + (agreed + 1),
        );
    }
    comes_to(true, s.at + v.shift, v.shift_memory, m - from + low)
}

#[tactic(auto, unfolding(windows::specs::Window::backward_window))]
fn backward_window(haystack: &[u8], needle: &[u8], set: u64, v: Plan, s: Cursor) -> Outcome
    requires { Opens true (length needle.now) (length haystack.now) v s }
    ensures { result ≡ backward_window (has set) v (front needle.now) (front haystack.now) s }
{
    let m = needle.len();
    let first = s.at - m;
    if !may_have(set, haystack, first) {
        return comes_to(false, first, m, 0);
    }
    let upto = number::smaller(v.split, s.memory);
    let agreed = letters::agree_down(haystack, needle, first, upto, 0);
    if agreed < upto {
        return comes_to(
            false,
            s.at - (v.split - (upto - (1 + agreed))),
            m,
            agreed + 1,
        );
    }
    let high = number::larger(v.split, s.memory);
    let j = letters::first_up(haystack, needle, first, v.split, high);
    if j < high {
        return comes_to(
            false,
            s.at - v.period,
            v.period_memory,
            upto + (j + 1 - v.split),
        );
    }
    comes_to(
        true,
        s.at - v.shift,
        v.shift_memory,
        upto + (high - v.split),
    )
}

// The window of a walk in a direction. The two are mirror images, and no twins.
pub(crate) fn window<const BACKWARD: bool>(
    haystack: &[u8],
    needle: &[u8],
    set: u64,
    v: Plan,
    s: Cursor,
) -> Outcome
    requires { Opens BACKWARD (length needle.now) (length haystack.now) v s }
    ensures { result ≡ window_of BACKWARD (has set) v (front needle.now) (front haystack.now) s }
{
    if BACKWARD {
        backward_window(haystack, needle, set, v, s)
    } else {
        forward_window(haystack, needle, set, v, s)
    }
}
