// The mode and the state of a walk in a case line, read and printed: MODE and STATE of docs/LINES.md.
#![tactic(auto)]

ghost use Rattle.std.specs.Prelude.{◌≡◌, ◌+◌};
ghost use Rattle.printing.specs.InRoom.{InRoom};
ghost use Rattle.printing.specs.Printing.{Prints, form_text};
ghost use Rattle.states.specs.States.{head_at, field_at, two_at, mode_at, ends_at, memory_at, splits_at, flags_at, rest_at, walk_of, walk_at, state_at, letter_of, begin_text, splits_numbers, two_way_text, empty_text, state_text};

use lines::Read;
use searcher::{Fixed, Kind, Memory, Mode, Moving, TwoWaySearcher};

// The letters of the two modes.
const NON_OVERLAPPING: u8 = b'n';

const OVERLAPPING: u8 = b'o';

// The letter of each form: a long state, a short one, and that of an empty needle.
#[derive(Clone, Copy)]
enum Letter {
    L,
    S,
    E,
}

// What all forms have behind their letter.
#[derive(Clone, Copy)]
struct Ends {
    needle_len: usize,
    haystack_len: usize,
    position: usize,
    end: usize,
    mode: Mode,
}

// What stands behind that.
#[derive(Clone, Copy)]
struct Rest {
    crit_pos: usize,
    crit_pos_back: usize,
    period: usize,
    byteset: u64,
    memory: Memory,
    kind: Kind,
}

// The letter of a state: L, S or E.
#[tactic(auto, unfolding(crate::specs::States::head_at))]
fn read_head(line: &[u8], c: Option<usize>) -> Option<Read<Letter>>
    ensures { result ≡ head_at line.now c }
{
    if let Some(next) = lines::skip(line, c, b'L') {
        let value = Letter::L;
        return Some(Read { value, next });
    }
    if let Some(next) = lines::skip(line, c, b'S') {
        let value = Letter::S;
        return Some(Read { value, next });
    }
    let value = Letter::E;
    let next = lines::skip(line, c, b'E')?;
    Some(Read { value, next })
}

// A number behind a colon, and two of them.
fn read_one(line: &[u8], c: Option<usize>) -> Option<Read<usize>>
    ensures { result ≡ field_at line.now c }
{
    fields::read_field(line, c, b':')
}

#[tactic(auto, unfolding(crate::specs::States::two_at))]
fn read_two(line: &[u8], c: Option<usize>) -> Option<Read<(usize, usize)>>
    ensures { result ≡ two_at line.now c }
{
    let first = read_one(line, c)?;
    let second = read_one(line, Some(first.next))?;
    let value = (first.value, second.value);
    let next = second.next;
    Some(Read { value, next })
}

// Reads the letter of a mode.
#[tactic(auto, unfolding(crate::specs::States::mode_at))]
pub fn read_mode(line: &[u8], c: Option<usize>) -> Option<Read<Mode>>
    ensures { result ≡ mode_at line.now c }
{
    let read = fields::read_either(line, c, NON_OVERLAPPING, OVERLAPPING)?;
    let value = if read.value {
        Mode::Overlapping
    } else {
        Mode::NonOverlapping
    };
    let next = read.next;
    Some(Read { value, next })
}

// What all forms have behind their letter: four numbers and the mode.
#[tactic(auto, unfolding(crate::specs::States::ends_at))]
fn read_ends(line: &[u8], c: Option<usize>) -> Option<Read<Ends>>
    ensures { result ≡ ends_at line.now c }
{
    let lengths = read_two(line, c)?;
    let places = read_two(line, Some(lengths.next))?;
    let mode = read_mode(line, lines::skip(line, Some(places.next), b':'))?;
    let (needle_len, haystack_len) = lengths.value;
    let (position, end) = places.value;
    let value = Ends {
        needle_len,
        haystack_len,
        position,
        end,
        mode: mode.value,
    };
    let next = mode.next;
    Some(Read { value, next })
}

// The memories of a short state. The others have none, of which there is nothing to read.
#[tactic(auto, unfolding(crate::specs::States::memory_at))]
fn read_memory(line: &[u8], c: Option<usize>, letter: Letter) -> Option<Read<Memory>>
    ensures { result ≡ memory_at line.now c letter }
{
    match letter {
        Letter::S => {
            let memories = read_two(line, c)?;
            let (forward, backward) = memories.value;
            let value = Memory::Short { forward, backward };
            let next = memories.next;
            Some(Read { value, next })
        }
        Letter::L | Letter::E => {
            let value = Memory::Long;
            let next = c?;
            Some(Read { value, next })
        }
    }
}

// What a long or a short state has behind its ends: the splits, the period, the set and the memories.
#[tactic(auto, unfolding(crate::specs::States::splits_at))]
fn read_splits(line: &[u8], c: Option<usize>, letter: Letter) -> Option<Read<Rest>>
    ensures { result ≡ splits_at line.now c letter }
{
    let splits = read_two(line, c)?;
    let period = read_one(line, Some(splits.next))?;
    let set = fields::read_set(line, lines::skip(line, Some(period.next), b':'))?;
    let memory = read_memory(line, Some(set.next), letter)?;
    let (crit_pos, crit_pos_back) = splits.value;
    let value = Rest {
        crit_pos,
        crit_pos_back,
        period: period.value,
        byteset: set.value,
        memory: memory.value,
        kind: Kind::TwoWay,
    };
    let next = memory.next;
    Some(Read { value, next })
}

// What the state of an empty needle has there: its flags.
#[tactic(auto, unfolding(crate::specs::States::flags_at))]
fn read_flags(line: &[u8], c: Option<usize>) -> Option<Read<Rest>>
    ensures { result ≡ flags_at line.now c }
{
    let forward = fields::read_flag(line, lines::skip(line, c, b':'))?;
    let backward = fields::read_flag(line, lines::skip(line, Some(forward.next), b':'))?;
    let empty = Kind::Empty {
        is_match_fw: forward.value,
        is_match_bw: backward.value,
    };
    let value = Rest {
        crit_pos: 0,
        crit_pos_back: 0,
        period: 0,
        byteset: 0,
        memory: Memory::Long,
        kind: empty,
    };
    let next = backward.next;
    Some(Read { value, next })
}

// What stands there, by the letter.
fn read_rest(line: &[u8], c: Option<usize>, letter: Letter) -> Option<Read<Rest>>
    ensures { result ≡ rest_at line.now c letter }
{
    match letter {
        Letter::L | Letter::S => read_splits(line, c, letter),
        Letter::E => read_flags(line, c),
    }
}

fn walk_of(ends: Ends, rest: Rest) -> TwoWaySearcher
    ensures { result ≡ walk_of ends rest }
{
    let Ends {
        needle_len,
        haystack_len,
        position,
        end,
        mode,
    } = ends;
    let Rest {
        crit_pos,
        crit_pos_back,
        period,
        byteset,
        memory,
        kind,
    } = rest;
    TwoWaySearcher {
        fixed: Fixed {
            needle_len,
            haystack_len,
            mode,
            crit_pos,
            crit_pos_back,
            period,
            byteset,
        },
        moving: Moving {
            position,
            end,
            memory,
            kind,
        },
    }
}

// Reads a state, whatever stands behind it.
#[tactic(auto, unfolding(crate::specs::States::walk_at))]
pub fn read_walk(line: &[u8], c: Option<usize>) -> Option<Read<TwoWaySearcher>>
    ensures { result ≡ walk_at line.now c }
{
    let head = read_head(line, c)?;
    let ends = read_ends(line, Some(head.next))?;
    let rest = read_rest(line, Some(ends.next), head.value)?;
    let value = walk_of(ends.value, rest.value);
    let next = rest.next;
    Some(Read { value, next })
}

// Reads a state at the end of a line.
#[tactic(auto, unfolding(crate::specs::States::state_at))]
pub fn read_state(line: &[u8], c: Option<usize>) -> Option<TwoWaySearcher>
    ensures { result ≡ state_at line.now c }
{
    let read = read_walk(line, c)?;
    if !lines::is_end(line, Some(read.next)) {
        return None;
    }
    Some(read.value)
}

// The letter of a mode.
fn mode_letter(mode: Mode) -> u8
    ensures { result ≡ letter_of mode }
{
    if record::overlaps(mode) {
        OVERLAPPING
    } else {
        NON_OVERLAPPING
    }
}

// Prints what all forms begin with, behind a space: the letter, four numbers and the mode.
fn put_begin(out: &mut [u8], at: usize, w: TwoWaySearcher, letter: u8) -> usize
    ensures { Prints out.old at (begin_text w letter) out.new result }
{
    let TwoWaySearcher { fixed, moving } = w;
    let mode = mode_letter(fixed.mode);
    let form = [
        b' ', letter, b':', b'#', b':', b'#', b':', b'#', b':', b'#', b':', mode,
    ];
    let row = [
        fixed.needle_len,
        fixed.haystack_len,
        moving.position,
        moving.end,
    ];
    printing::put_form(out, at, &form, &row)
}

// Prints what a two way state has behind that, by its form: the splits, the period and the set, and behind them the memories, which a
// form without marks for them leaves out.
fn put_splits(
    out: &mut [u8],
    at: usize,
    form: &[u8],
    fixed: Fixed,
    forward: usize,
    backward: usize,
) -> usize
    ensures { Prints out.old at (form_text form.now (splits_numbers fixed forward backward)) out.new result }
{
    let row = [
        fixed.crit_pos,
        fixed.crit_pos_back,
        fixed.period,
        fixed.byteset as usize,
        forward,
        backward,
    ];
    printing::put_form(out, at, form, &row)
}

// Prints the state of a two way walk, by its memory, and that of an empty needle, with its flags.
fn put_two_way(out: &mut [u8], at: usize, w: TwoWaySearcher, memory: Memory) -> usize
    ensures { Prints out.old at (two_way_text w memory) out.new result }
{
    let fixed = w.fixed;
    match memory {
        Memory::Long => {
            let at = put_begin(out, at, w, b'L');
            put_splits(out, at, b":#:#:#:%", fixed, 0, 0)
        }
        Memory::Short { forward, backward } => {
            let at = put_begin(out, at, w, b'S');
            put_splits(out, at, b":#:#:#:%:#:#", fixed, forward, backward)
        }
    }
}

fn put_empty(out: &mut [u8], at: usize, w: TwoWaySearcher, forward: bool, backward: bool) -> usize
    ensures { Prints out.old at (empty_text w forward backward) out.new result }
{
    let row = [forward as usize, backward as usize];
    let at = put_begin(out, at, w, b'E');
    printing::put_form(out, at, b":#:#", &row)
}

// Prints a state behind a space.
pub fn put_state(out: &mut [u8], at: usize, w: TwoWaySearcher) -> usize
    ensures in_room { InRoom out.new (at + 214) result }
    ensures rule { Prints out.old at (state_text w) out.new result }
{
    let moving = w.moving;
    let flags = record::flags_of(moving.kind);
    if flags.empty {
        return put_empty(out, at, w, flags.is_match_fw, flags.is_match_bw);
    }
    put_two_way(out, at, w, moving.memory)
}
