// The answers: a front, and a state and counts behind it.
ghost use Rattle.std.specs.Prelude.{◌+◌, ◌*◌, ◌≤◌, length, OnOk};
ghost use Rattle.std.specs.Io.KnownBytes.{Appends};
ghost use Rattle.limits.specs.Said.{said};
ghost use Rattle.searcher.specs.Walk.{told as call_told, new_rule};
ghost use Rattle.states.specs.States.{state_text};
ghost use Rattle.twoway.specs.Find.{search_told};
ghost use Rattle.walk.specs.Answers.{front_text, IsFrontShort, suffix_text, reverse_suffix_text, prepared_text, found_text, told_text, call_text, told_said, walk_text, answer_text, most_bytes};

use crate::call::{Call, Told};
use crate::case::Asked;
use crate::front::Front;
use limits::Refusal;
use searcher::{Counts, Mode, Prepared, TwoWaySearcher};
use std::io::{self, Write};
use suffix::{ReverseSuffix, Suffix};
use twoway::Answer;

// A state has fewer bytes, with the space before it.
const STATE_BYTES: usize = 215;

#[tactic(auto, using(crate::proofs::Laws::refused_size))]
fn put_refused<W: Write>(out: &mut W, why: Refusal) -> io::Result<()>
    ensures text { OnOk result (Appends (W.contents out.old) (W.contents out.new) (front_text (Front.Refused why))) }
    ensures bound { length (front_text (Front.Refused why)) ≤ 24 }
{
    write!(out, "{}", Front::Refused(why))
}

fn put_state<W: Write>(out: &mut W, walk: TwoWaySearcher) -> io::Result<()>
    ensures text { OnOk result (Appends (W.contents out.old) (W.contents out.new) (state_text walk)) }
    ensures bound { length (state_text walk) ≤ 214 }
{
    let mut room = [0u8; STATE_BYTES];
    let end = states::put_state(&mut room, 0, walk);
    // All of it was printed, since the place behind it is before the end.
    prove!(end < STATE_BYTES);
    out.write_all(&room[..end])
}

#[tactic(auto, using(crate::proofs::Laws::suffix_size))]
fn put_suffix<W: Write>(out: &mut W, answer: Result<Suffix, Refusal>) -> io::Result<()>
    ensures text { OnOk result (Appends (W.contents out.old) (W.contents out.new) (suffix_text (said answer))) }
    ensures bound { length (suffix_text (said answer)) ≤ 65 }
{
    match answer {
        Ok(s) => write!(out, "ok {} {} {}", s.start, s.period, s.rounds),
        Err(why) => put_refused(out, why),
    }
}

#[tactic(auto, using(crate::proofs::Laws::reverse_suffix_size))]
fn put_reverse_suffix<W: Write>(
    out: &mut W,
    answer: Result<ReverseSuffix, Refusal>,
) -> io::Result<()>
    ensures text { OnOk result (Appends (W.contents out.old) (W.contents out.new) (reverse_suffix_text (said answer))) }
    ensures bound { length (reverse_suffix_text (said answer)) ≤ 44 }
{
    match answer {
        Ok(s) => write!(out, "ok {} {}", s.start, s.rounds),
        Err(why) => put_refused(out, why),
    }
}

// A refused search has no counts.
#[tactic(auto, using(crate::proofs::Laws::found_size))]
fn put_found<W: Write>(out: &mut W, r: Answer) -> io::Result<()>
    ensures text { OnOk result (Appends (W.contents out.old) (W.contents out.new) (found_text (search_told r))) }
    ensures bound { length (found_text (search_told r)) ≤ 111 }
{
    match r.position {
        Ok(place) => write!(
            out,
            "{} {} {} {}",
            Front::from(place),
            r.counts.preparing,
            r.counts.comparisons,
            r.counts.tests,
        ),
        Err(why) => put_refused(out, why),
    }
}

// Nor has a refused preparing, and no state.
fn put_prepared<W: Write>(out: &mut W, p: Prepared) -> io::Result<()>
    ensures text { OnOk result (Appends (W.contents out.old) (W.contents out.new) (prepared_text (call_told p))) }
    ensures bound { OnOk result (length (prepared_text (call_told p)) ≤ 237) }
{
    match p.answer {
        Ok(()) => {
            write!(out, "ok")?;
            put_state(out, p.walk)?;
            write!(out, " {}", p.counts.preparing)
        }
        Err(why) => put_refused(out, why),
    }
}

// What a call in a handed-in state told.
fn put_told<W: Write>(out: &mut W, told: Told) -> io::Result<()>
    ensures text { OnOk result (Appends (W.contents out.old) (W.contents out.new) (told_text (told_said told))) }
    ensures bound { OnOk result (IsFrontShort told.front → length (told_text (told_said told)) ≤ 304) }
{
    write!(out, "{}", told.front)?;
    put_state(out, told.walk)?;
    write!(out, " {} {}", told.counts.comparisons, told.counts.tests)
}

// What a call of a walk told, without its state.
#[tactic(auto, using(crate::proofs::Laws::call_size))]
fn put_call<W: Write>(out: &mut W, front: Front, counts: Counts) -> io::Result<()>
    ensures text { OnOk result (Appends (W.contents out.old) (W.contents out.new) (call_text (front_text front) counts)) }
    ensures bound { IsFrontShort front → length (call_text (front_text front) counts) ≤ 91 }
{
    write!(out, " {front}/{}/{}", counts.comparisons, counts.tests)
}

// A walk from preparing on, by each letter of a script: RESULT/COMPARISONS/TESTS for each, and the last state.
fn put_walk<W: Write>(
    out: &mut W,
    mode: Mode,
    script: &[u8],
    haystack: &[u8],
    needle: &[u8],
) -> io::Result<()>
    ensures text { OnOk result (Appends (W.contents out.old) (W.contents out.new)
        (walk_text (new_rule needle.now (length haystack.now) mode) script.now haystack.now needle.now)) }
    ensures bound { OnOk result
        (length (walk_text (new_rule needle.now (length haystack.now) mode) script.now haystack.now needle.now) ≤ 237 + 91 * length script.now) }
{
    let prepared = TwoWaySearcher::new(needle, haystack.len(), mode);
    if let Err(why) = prepared.answer {
        return put_refused(out, why);
    }
    write!(out, "ok {}", prepared.counts.preparing)?;
    let mut walk = prepared.walk;
    for letter in script {
        let told = Call::of_letter(*letter).make(walk, haystack, needle);
        put_call(out, told.front, told.counts)?;
        walk = told.walk;
    }
    put_state(out, walk)
}

pub(crate) fn put<W: Write>(
    out: &mut W,
    asked: Asked<'_>,
    needle: &[u8],
    haystack: &[u8],
) -> io::Result<()>
    ensures text { OnOk result (Appends (W.contents out.old) (W.contents out.new) (answer_text asked.entry needle.now haystack.now)) }
    ensures bound { OnOk result (length (answer_text asked.entry needle.now haystack.now) ≤ most_bytes asked.entry) }
{
    match asked {
        Asked::Suffix { order_greater } => {
            put_suffix(out, suffix::maximal_suffix(needle, order_greater))
        }
        Asked::ReverseSuffix {
            known,
            order_greater,
        } => put_reverse_suffix(
            out,
            suffix::reverse_maximal_suffix(needle, known, order_greater),
        ),
        Asked::Prepare { haystack_len, mode } => {
            put_prepared(out, TwoWaySearcher::new(needle, haystack_len, mode))
        }
        Asked::Find => put_found(out, twoway::find_bytes(haystack, needle)),
        Asked::FindBack => put_found(out, twoway::rfind_bytes(haystack, needle)),
        Asked::Call(call, walk) => put_told(out, call.make(walk, haystack, needle)),
        Asked::Walk { mode, script } => put_walk(out, mode, script, haystack, needle),
    }
}
