// One line to one answer. Their forms stand in docs/LINES.md; the words in capitals are its own.
ghost use Rattle.std.specs.Prelude.{◌≤◌, length, IfSome, OnOk};
ghost use Rattle.walk.specs.Answers.{AppendsAnswer, most_bytes};

use crate::call::Call;
use crate::kind::Kind;
use crate::reply;
use lines::Read;
use searcher::{Mode, TwoWaySearcher};
use std::io::{self, Write};

// The most bytes that a word may have.
const WORD_BYTES: usize = 4096;

// The most letters that a script may have.
const SCRIPT_LETTERS: usize = 256;

// The most bytes that a line may have: those of a walk over two such words, with the longest script. None that is longer is well formed.
pub(crate) const LINE_BYTES: usize = 16649;

// The most bytes that an answer has: a walk with the longest script, of `ok` and a count, 256 calls, and a state.
pub(crate) const ANSWER_BYTES: usize = 23533;

// What a line asks for, behind its words.
#[derive(Clone, Copy)]
pub(crate) enum Asked<'a> {
    Suffix { order_greater: bool },
    ReverseSuffix { known: usize, order_greater: bool },
    Prepare { haystack_len: usize, mode: Mode },
    Find,
    FindBack,
    Call(Call, TwoWaySearcher),
    Walk { mode: Mode, script: &'a [u8] },
}

// That, and the lengths of its words.
#[derive(Clone, Copy)]
struct Case<'a> {
    needle: usize,
    haystack: usize,
    asked: Asked<'a>,
}

// Where reading stands behind the space at `at`.
fn space(line: &[u8], at: usize) -> Option<usize> {
    lines::skip(line, Some(at), b' ')
}

// What was read, if it ends the line.
fn last<T: Copy>(line: &[u8], read: Read<T>) -> Option<T> {
    lines::is_end(line, Some(read.next)).then_some(read.value)
}

// The script that ends the line from `from` on.
fn script(line: &[u8], from: usize) -> Option<&[u8]>
    ensures { IfSome result (λ script. length script.now ≤ SCRIPT_LETTERS) }
{
    let script = line.get(from..)?;
    if SCRIPT_LETTERS < script.len() {
        return None;
    }
    lines::is_script(script).then_some(script)
}

// ORDER, behind the space at `at`, at the end of the line.
fn order(line: &[u8], at: usize) -> Option<bool> {
    last(line, fields::read_flag(line, space(line, at))?)
}

// What stands behind the words of a line, which end at `at`.
fn read_asked(line: &[u8], at: usize, kind: Kind) -> Option<Asked<'_>>
    ensures { IfSome result (λ asked. most_bytes asked ≤ ANSWER_BYTES) }
{
    match kind {
        Kind::Suffix => Some(Asked::Suffix {
            order_greater: order(line, at)?,
        }),
        Kind::ReverseSuffix => {
            let known = fields::read_field(line, Some(at), b' ')?;
            Some(Asked::ReverseSuffix {
                known: known.value,
                order_greater: order(line, known.next)?,
            })
        }
        Kind::Prepare => {
            let length = fields::read_field(line, Some(at), b' ')?;
            Some(Asked::Prepare {
                haystack_len: length.value,
                mode: last(line, states::read_mode(line, space(line, length.next))?)?,
            })
        }
        Kind::Find => lines::is_end(line, Some(at)).then_some(Asked::Find),
        Kind::FindBack => lines::is_end(line, Some(at)).then_some(Asked::FindBack),
        Kind::Call(call) => Some(Asked::Call(call, states::read_state(line, space(line, at))?)),
        Kind::Walk => {
            let mode = states::read_mode(line, space(line, at))?;
            Some(Asked::Walk {
                mode: mode.value,
                script: script(line, space(line, mode.next)?)?,
            })
        }
    }
}

// Reads a line, its words into the two rooms.
fn read<'a>(line: &'a [u8], first: &mut [u8], second: &mut [u8]) -> Option<Case<'a>>
    ensures words { IfSome result (λ case. (case.needle ≤ length first.new) × (case.haystack ≤ length second.new)) }
    ensures short { IfSome result (λ case. most_bytes case.asked ≤ ANSWER_BYTES) }
{
    let name = lines::until(line, b' ');
    let kind = Kind::named(&line[..name])?;
    let needle = fields::read_word(line, space(line, name), first)?;
    let haystack = if kind.has_haystack() {
        fields::read_word(line, space(line, needle.next), second)?
    } else {
        Read {
            value: 0,
            next: needle.next,
        }
    };
    Some(Case {
        needle: needle.value,
        haystack: haystack.value,
        asked: read_asked(line, haystack.next, kind)?,
    })
}

// Prints the answer to a line. What is malformed or too long is answered by `bad line`.
#[tactic(auto, using(crate::proofs::Laws::answers_badly, crate::proofs::Laws::answers))]
pub(crate) fn answer<W: Write>(out: &mut W, line: &[u8]) -> io::Result<()>
    ensures { OnOk result (AppendsAnswer ANSWER_BYTES (W.contents out.old) (W.contents out.new)) }
{
    let mut first = [0u8; WORD_BYTES];
    let mut second = [0u8; WORD_BYTES];
    let Some(case) = read(line, &mut first, &mut second) else {
        return write!(out, "bad line");
    };
    reply::put(
        out,
        case.asked,
        &first[..case.needle],
        &second[..case.haystack],
    )
}
