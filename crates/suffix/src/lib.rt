#![tactic(auto)]

ghost use Rattle.std.specs.Prelude.{◌≡◌, ◌+◌, ◌<◌, ◌^◌, cond, ltb, length};
ghost use Rattle.words.specs.Word.{front, back};
ghost use Rattle.words.specs.Order.{below};
ghost use Rattle.limits.specs.Bounds.{needle_bound};
ghost use Rattle.limits.specs.Said.{refused, given, said};
ghost use Rattle.suffix.specs.Rounds.{round_on, rounds};
ghost use Rattle.suffix.specs.Answer.{Sound, maximal_rule, MaximalMeaning, reverse_rule, ReverseMeaning};

use limits::Refusal;

// The maximal suffix of a word: where it starts, its smallest period, and the rounds that it took to find it.
#[derive(Clone, Copy)]
pub struct Suffix {
    pub start: usize,
    pub period: usize,
    pub rounds: usize,
}

// The maximal suffix of a reversed word: the start, counted from the back, and the rounds.
#[derive(Clone, Copy)]
pub struct ReverseSuffix {
    pub start: usize,
    pub rounds: usize,
}

// Where the search for a maximal suffix stands; the names are the source's.
#[derive(Clone, Copy)]
struct State {
    left: usize, // i in the paper
    right: usize, // j in the paper
    offset: usize, // k in the paper, from 0
    period: usize, // p in the paper
}

// The letter of that index in the word, counted from the front or from the back: the one place of this crate that reads one.
fn letter<const BACKWARD: bool>(arr: &[u8], i: usize) -> u8
    requires { i < length arr.now }
    ensures { result ≡ (cond BACKWARD (back arr.now) (front arr.now)).letter i }
{
    if BACKWARD {
        arr[arr.len() - (1 + i)]
    } else {
        arr[i]
    }
}

// Whether a is below b, in the byte order or in the reversed one.
fn is_below(a: u8, b: u8, order_greater: bool) -> bool
    ensures { result ≡ below order_greater a b }
{
    if order_greater { b < a } else { a < b }
}

// One round, on the new letter a and the letter b that is expected there.
#[tactic(auto, unfolding(crate::specs::Rounds::round_on))]
fn round_on(s: State, a: u8, b: u8, order_greater: bool) -> State
    requires { Sound s × (s.right + s.offset < 2 ^ 63) }
    ensures { result ≡ round_on order_greater a b s }
{
    if is_below(a, b, order_greater) {
        // Suffix is smaller, period is entire prefix so far.
        return State {
            left: s.left,
            right: s.right + (s.offset + 1),
            offset: 0,
            period: s.right + (s.offset + 1) - s.left,
        };
    }
    if a == b {
        // Advance through repetition of the current period.
        if s.offset + 1 == s.period {
            return State {
                left: s.left,
                right: s.right + (s.offset + 1),
                offset: 0,
                period: s.period,
            };
        }
        return State {
            left: s.left,
            right: s.right,
            offset: s.offset + 1,
            period: s.period,
        };
    }
    // Suffix is larger, start over from current location.
    State {
        left: s.right,
        right: s.right + 1,
        offset: 0,
        period: 1,
    }
}

// One pass: the rounds over the word, read from the front or from the back, up to the first that leaves the period `known`.
fn pass<const BACKWARD: bool>(
    arr: &[u8],
    known: Option<usize>,
    order_greater: bool,
) -> Result<Suffix, Refusal>
    ensures { said result ≡ cond (ltb needle_bound (length arr.now)) (refused 2) (given (rounds order_greater (cond BACKWARD (back arr.now) (front arr.now)) known)) }
{
    let n = arr.len();
    if limits::needle_too_long(n) {
        return Err(Refusal::NeedleTooLong);
    }
    let mut s = State {
        left: 0,
        right: 1,
        offset: 0,
        period: 1,
    };
    let mut rounds: usize = 0;
    while s.right + s.offset < n {
        let i = s.right + s.offset;
        let j = s.left + s.offset;
        let new = letter::<BACKWARD>(arr, i);
        let expected = letter::<BACKWARD>(arr, j);
        s = round_on(s, new, expected, order_greater);
        rounds += 1;
        if Some(s.period) == known {
            break;
        }
    }
    Ok(Suffix {
        start: s.left,
        period: s.period,
        rounds,
    })
}

// The maximal suffix of `arr`.
pub fn maximal_suffix(arr: &[u8], order_greater: bool) -> Result<Suffix, Refusal>
    ensures rule { said result ≡ maximal_rule order_greater arr.now }
    ensures meaning { MaximalMeaning order_greater arr.now (said result) }
{
    pass::<false>(arr, None, order_greater)
}

// The maximal suffix of the reverse of `arr`; it returns as soon as the period `known_period` is reached.
pub fn reverse_maximal_suffix(
    arr: &[u8],
    known_period: usize,
    order_greater: bool,
) -> Result<ReverseSuffix, Refusal>
    ensures rule { said result ≡ reverse_rule order_greater known_period arr.now }
    ensures meaning { ReverseMeaning order_greater known_period arr.now (said result) }
{
    let s = pass::<true>(arr, Some(known_period), order_greater)?;
    Ok(ReverseSuffix {
        start: s.start,
        rounds: s.rounds,
    })
}
