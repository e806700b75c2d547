// What the kind of a walk, its mode and the kind of its memory are to its two directions: what they go by, where they stand, and what
// they set. Each function with a parameter BACKWARD is both directions: where they differ stands an `if` on it.
ghost use Rattle.std.specs.Prelude.{◌≡◌, cond};
ghost use Rattle.record.specs.Kinds.{flags_of, overlaps, after_match, match_shift, memory_of, set_memory, period_memory_of, plan_of, cursor_of, moved_to};

use crate::{Fixed, Flags, Kind, Memory, Mode, Moving};
use windows::{Cursor, Plan};

// The one place that tells the kinds of walk apart.
pub fn flags_of(kind: Kind) -> Flags
    ensures { result ≡ flags_of kind }
{
    match kind {
        Kind::TwoWay => Flags {
            empty: false,
            is_match_fw: false,
            is_match_bw: false,
        },
        Kind::Empty {
            is_match_fw,
            is_match_bw,
        } => Flags {
            empty: true,
            is_match_fw,
            is_match_bw,
        },
    }
}

// The one place that tells the modes apart.
pub fn overlaps(mode: Mode) -> bool
    ensures { result ≡ overlaps mode }
{
    match mode {
        Mode::NonOverlapping => false,
        Mode::Overlapping => true,
    }
}

// The memory where nothing is known, for a needle of m bytes.
fn no_memory<const BACKWARD: bool>(m: usize) -> usize
    ensures { result ≡ cond BACKWARD m 0 }
{
    if BACKWARD { m } else { 0 }
}

// What the memory is to a direction: a Long walk has none, and reads as if nothing were known.
fn memory_of<const BACKWARD: bool>(m: usize, memory: Memory) -> usize
    ensures { result ≡ memory_of BACKWARD m memory }
{
    match memory {
        Memory::Long => no_memory::<BACKWARD>(m),
        Memory::Short { backward, .. } if BACKWARD => backward,
        Memory::Short { forward, .. } => forward,
    }
}

// The memory with one direction's number set; the other direction's stays.
fn set_memory<const BACKWARD: bool>(k: usize, memory: Memory) -> Memory
    ensures { result ≡ set_memory BACKWARD k memory }
{
    match memory {
        Memory::Long => Memory::Long,
        Memory::Short { forward, .. } if BACKWARD => Memory::Short {
            forward,
            backward: k,
        },
        Memory::Short { backward, .. } => Memory::Short {
            forward: k,
            backward,
        },
    }
}

// The memory that a difference in the part that is compared second sets. A period above m fits no needle; nothing is remembered then.
fn period_memory_of<const BACKWARD: bool>(m: usize, period: usize, memory: Memory) -> usize
    ensures { result ≡ period_memory_of BACKWARD m period memory }
{
    match memory {
        Memory::Long => no_memory::<BACKWARD>(m),
        Memory::Short { .. } if BACKWARD => period,
        Memory::Short { .. } => m.saturating_sub(period),
    }
}

// What follows a match: a number of its own, or, where matches may overlap, the one that follows a difference in the part that is
// compared second.
fn after_match(mode: Mode, apart: usize, by_period: usize) -> usize
    ensures { result ≡ after_match mode apart by_period }
{
    if overlaps(mode) { by_period } else { apart }
}

// How far a match moves, in either direction.
fn match_shift(m: usize, fixed: Fixed) -> usize
    ensures { result ≡ match_shift m fixed }
{
    after_match(fixed.mode, m, fixed.period)
}

// What a walk in a direction goes by, for a needle of m bytes.
pub fn plan<const BACKWARD: bool>(m: usize, fixed: Fixed, memory: Memory) -> Plan
    ensures { result ≡ plan_of BACKWARD m fixed memory }
{
    let period_memory = period_memory_of::<BACKWARD>(m, fixed.period, memory);
    Plan {
        split: if BACKWARD {
            fixed.crit_pos_back
        } else {
            fixed.crit_pos
        },
        period: fixed.period,
        period_memory,
        shift: match_shift(m, fixed),
        shift_memory: after_match(fixed.mode, no_memory::<BACKWARD>(m), period_memory),
    }
}

// Where it stands.
pub fn cursor<const BACKWARD: bool>(m: usize, moving: Moving) -> Cursor
    ensures { result ≡ cursor_of BACKWARD m moving }
{
    Cursor {
        at: if BACKWARD {
            moving.end
        } else {
            moving.position
        },
        memory: memory_of::<BACKWARD>(m, moving.memory),
    }
}

// The walk moved to a cursor of one direction; the other direction's stays.
pub fn moved<const BACKWARD: bool>(moving: Moving, to: Cursor) -> Moving
    ensures { result ≡ moved_to BACKWARD moving to }
{
    let memory = set_memory::<BACKWARD>(to.memory, moving.memory);
    if BACKWARD {
        Moving {
            end: to.at,
            memory,
            ..moving
        }
    } else {
        Moving {
            position: to.at,
            memory,
            ..moving
        }
    }
}
