// Preparing: the splits, the period and the fingerprint of a needle, and what they cost.
#![tactic(auto)]

ghost use Rattle.std.specs.Prelude.{◌≡◌, ◌+◌, ◌*◌, ◌<◌, ◌≤◌, length};
ghost use Rattle.std.specs.Prelude.{None, Some};
ghost use Rattle.words.specs.Word.{front, back};
ghost use Rattle.words.specs.Period.{Period};
ghost use Rattle.limits.specs.Bounds.{needle_bound};
ghost use Rattle.suffix.specs.Rounds.{rounds};
ghost use Rattle.prepare.specs.Prepare.{choice, to_reverse, parts_told, prepare_short, prepare_long, refuse, ready, lengths_alone, empty_walk, five_steps, prepare_rule, NoState};

use limits::Refusal;
use record::{Counts, Fixed, Kind, Memory, Mode, Moving};
use suffix::{ReverseSuffix, Suffix};

// What preparing comes to: the two parts of a record, and the count. Where it refuses, they are no state.
#[derive(Clone, Copy)]
pub struct Parts {
    pub answer: Result<(), Refusal>,
    pub fixed: Fixed,
    pub moving: Moving,
    pub counts: Counts,
}

// A needle that there is something to prepare for: it is not empty, and it is within the bound, so that no pass over it refuses.
#[derive(Clone, Copy)]
struct Needle<'a> {
    bytes: &'a [u8],
    ghost some: { 0 < length bytes.now },
    ghost within: { length bytes.now ≤ needle_bound },
}

impl Needle<'_> {
    // Its maximal suffix.
    fn maximal(self, order_greater: bool) -> Suffix
        ensures { result ≡ rounds order_greater (front self.entry.bytes.now) None }
    {
        suffix::maximal_suffix(self.bytes, order_greater).unwrap()
    }

    // The same from the back, with its period known.
    fn reverse_maximal(self, period: usize, order_greater: bool) -> ReverseSuffix
        ensures { result ≡ to_reverse (rounds order_greater (back self.entry.bytes.now) (Some period)) }
    {
        suffix::reverse_maximal_suffix(self.bytes, period, order_greater).unwrap()
    }

    // The later of the two starts, with its period; `rounds` counts both passes.
    // The period is one of the part from the start on, so it fits there, and as many bytes as stand before the start follow the period.
    fn choose(self) -> Suffix
        ensures choice { result ≡ choice self.entry.bytes.now }
        ensures fits { result.period + result.start ≤ length self.entry.bytes.now }
        ensures few { result.rounds ≤ 4 * length self.entry.bytes.now }
    {
        let lower = self.maximal(false);
        let higher = self.maximal(true);
        let rounds = lower.rounds + higher.rounds;
        if higher.start < lower.start {
            Suffix { rounds, ..lower }
        } else {
            Suffix { rounds, ..higher }
        }
    }

    // Step 3: p is a period of the needle, and the reverse passes stop where they find it. `before` is what was counted before them.
    fn short(self, n: usize, mode: Mode, c: usize, p: usize, before: usize) -> Parts
        requires { Period (front self.bytes.now) p × (before ≤ 5 * length self.bytes.now) }
        ensures { parts_told result ≡ prepare_short self.entry.bytes.now n mode c p before }
    {
        let m = self.bytes.len();
        let lower = self.reverse_maximal(p, false);
        let higher = self.reverse_maximal(p, true);
        let later = number::larger(lower.start, higher.start);
        let fixed = Fixed {
            needle_len: m,
            haystack_len: n,
            mode,
            crit_pos: c,
            crit_pos_back: m - later,
            period: p,
            byteset: byteset::byteset_create(&self.bytes[..p]),
        };
        let memory = Memory::Short {
            forward: 0,
            backward: m,
        };
        prepared(
            fixed,
            memory,
            Kind::TwoWay,
            before + (lower.rounds + higher.rounds),
        )
    }

    // Step 4: it is none, so the period that is kept is only one that is safe to move by.
    #[tactic(auto, unfolding(crate::specs::Prepare::prepare_long))]
    fn long(self, n: usize, mode: Mode, c: usize, before: usize) -> Parts
        requires { c ≤ length self.bytes.now }
        ensures { parts_told result ≡ prepare_long self.entry.bytes.now n mode c before }
    {
        let m = self.bytes.len();
        let fixed = Fixed {
            needle_len: m,
            haystack_len: n,
            mode,
            crit_pos: c,
            crit_pos_back: c,
            period: number::larger(c, m - c) + 1,
            byteset: byteset::byteset_create(self.bytes),
        };
        prepared(fixed, Memory::Long, Kind::TwoWay, before)
    }

    // The five steps.
    fn five_steps(self, n: usize, mode: Mode) -> Parts
        ensures { parts_told result ≡ five_steps self.entry.bytes.now n mode }
    {
        let split = self.choose();
        let c = split.start;
        let p = split.period;
        let agreed = compare::agree(&self.bytes[..c], &self.bytes[p..p + c]);
        if agreed < c {
            return self.long(n, mode, c, split.rounds + (agreed + 1));
        }
        self.short(n, mode, c, p, split.rounds + c)
    }
}

fn counted(preparing: usize) -> Counts
    ensures { result ≡ record { preparing = preparing; comparisons = 0; tests = 0 } }
{
    Counts {
        preparing,
        comparisons: 0,
        tests: 0,
    }
}

// A walk that is ready: both directions stand at their ends of the haystack.
fn prepared(fixed: Fixed, memory: Memory, kind: Kind, preparing: usize) -> Parts
    ensures { parts_told result ≡ ready fixed memory kind preparing }
{
    Parts {
        answer: Ok(()),
        fixed,
        moving: Moving {
            position: 0,
            end: fixed.haystack_len,
            memory,
            kind,
        },
        counts: counted(preparing),
    }
}

// What preparing fixes where it has nothing to split: the lengths and the mode, and zeros.
fn lengths_alone(m: usize, n: usize, mode: Mode) -> Fixed
    ensures { result ≡ lengths_alone m n mode }
{
    Fixed {
        needle_len: m,
        haystack_len: n,
        mode,
        crit_pos: 0,
        crit_pos_back: 0,
        period: 0,
        byteset: 0,
    }
}

// An empty needle: nothing is looked at, and in both directions a match is the first thing to come.
fn empty(n: usize, mode: Mode) -> Parts
    ensures { parts_told result ≡ empty_walk n mode }
{
    let kind = Kind::Empty {
        is_match_fw: true,
        is_match_bw: true,
    };
    prepared(lengths_alone(0, n, mode), Memory::Long, kind, 0)
}

// What is handed back where nothing is prepared.
fn refused(why: Refusal) -> Parts
    ensures { parts_told result ≡ refuse why }
{
    Parts {
        answer: Err(why),
        fixed: lengths_alone(0, 0, Mode::NonOverlapping),
        moving: Moving {
            position: 0,
            end: 0,
            memory: Memory::Long,
            kind: Kind::TwoWay,
        },
        counts: counted(0),
    }
}

// Prepares a walk for a needle in a haystack of n bytes, in a mode.
pub fn prepare(needle: &[u8], n: usize, mode: Mode) -> Parts
    ensures rule { parts_told result ≡ prepare_rule needle.now n mode }
    ensures meaning { NoState (parts_told result) }
{
    if let Err(why) = limits::check_lengths(n, needle.len()) {
        return refused(why);
    }
    if needle.is_empty() {
        return empty(n, mode);
    }
    Needle { bytes: needle }.five_steps(n, mode)
}
