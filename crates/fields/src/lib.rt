// Reading the fields of a case line: a choice of two letters, a number behind its mark, a set, a word. A reader takes what it can and
// stops. What stands behind it, a space, a colon or the end, is the next one's to ask: there a field is refused that is too long, or that
// breaks off. Where a reader answers `None` nothing was read.
#![tactic(auto)]

ghost use Rattle.std.specs.Prelude.{◌≡◌, ◌+◌, ◌*◌, ◌≤◌, ◌<◌, IfSome, drop, length};
ghost use Rattle.std.proofs.lemmas.List.Edits.{sets};
ghost use Rattle.lines.specs.Reading.{skipped};
ghost use Rattle.fields.specs.Fields.{either_at, flag_at, digit_of, with_digit, digits_from, number_at, set_at, byte_at, bytes_from, ReadsWord};

use lines::Read;

const NUMBER_DIGITS: usize = 20;

const SET_DIGITS: usize = 16;

// The value of a hex digit.
#[tactic(auto, unfolding(crate::specs::Fields::digit_of))]
fn digit(b: u8) -> Option<u8>
    ensures upper_bound { IfSome result (λ d. d < 16) }
    ensures rule { result ≡ digit_of b }
{
    match b {
        b'0'..=b'9' => Some(b - b'0'),
        b'a'..=b'f' => Some(b - b'a' + 10),
        _ => None,
    }
}

// Reads one of two bytes: the flag is set where it is the second.
#[tactic(auto, unfolding(crate::specs::Fields::either_at))]
pub fn read_either(s: &[u8], c: Option<usize>, first: u8, second: u8) -> Option<Read<bool>>
    ensures rule { result ≡ either_at s.now c first second }
{
    if let Some(next) = lines::skip(s, c, first) {
        return Some(Read { value: false, next });
    }
    let next = lines::skip(s, c, second)?;
    Some(Read { value: true, next })
}

// Reads the one digit 0 or 1.
pub fn read_flag(s: &[u8], c: Option<usize>) -> Option<Read<bool>>
    ensures rule { result ≡ flag_at s.now c }
{
    read_either(s, c, b'0', b'1')
}

// `value` with one more digit, where `b` is one of the base and the number still fits.
#[tactic(auto, unfolding(crate::specs::Fields::with_digit))]
fn with_digit(base: u64, value: u64, b: u8) -> Option<u64>
    ensures rule { result ≡ with_digit base value (digit_of b) }
{
    let d = digit(b)? as u64;
    if base <= d {
        return None;
    }
    value.checked_mul(base)?.checked_add(d)
}

// Reads digits of a base, at most `most`, as far as their value fits. How many there have to be is the caller's to ask: the place behind
// them says how many there are.
pub fn read_digits(s: &[u8], from: usize, base: u64, most: usize) -> Read<u64>
    ensures lower_bound { from ≤ result.next }
    ensures rule { result ≡ digits_from base most 0 from (drop from s.now) }
{
    let mut read = Read {
        value: 0,
        next: from,
    };
    for at in from..s.len().min(from.saturating_add(most)) {
        let Some(value) = with_digit(base, read.value, s[at]) else {
            return read;
        };
        read = Read {
            value,
            next: at + 1,
        };
    }
    read
}

// Reads 1 to 20 decimal digits, as far as their value fits.
#[tactic(auto, unfolding(crate::specs::Fields::number_at))]
fn read_number(s: &[u8], c: Option<usize>) -> Option<Read<usize>>
    ensures rule { result ≡ number_at s.now c }
{
    let from = c?;
    let read = read_digits(s, from, 10, NUMBER_DIGITS);
    if read.next == from {
        return None;
    }
    Some(Read {
        value: read.value as usize,
        next: read.next,
    })
}

// Reads `mark`, and a number behind it.
pub fn read_field(s: &[u8], c: Option<usize>, mark: u8) -> Option<Read<usize>>
    ensures rule { result ≡ number_at s.now (skipped s.now c mark) }
{
    read_number(s, lines::skip(s, c, mark))
}

// Reads 16 hex digits.
#[tactic(auto, unfolding(crate::specs::Fields::set_at))]
pub fn read_set(s: &[u8], c: Option<usize>) -> Option<Read<u64>>
    ensures rule { result ≡ set_at s.now c }
{
    let from = c?;
    let read = read_digits(s, from, 16, SET_DIGITS);
    if read.next - from < SET_DIGITS {
        return None;
    }
    Some(read)
}

// Reads two hex digits.
#[tactic(auto, unfolding(crate::specs::Fields::byte_at))]
fn read_byte(s: &[u8], at: usize) -> Option<u8>
    ensures within { IfSome result (λ _. at + 2 ≤ length s.now) }
    ensures rule { result ≡ byte_at s.now at }
{
    let high = digit(*s.get(at)?)?;
    let low = digit(*s.get(at + 1)?)?;
    Some(high * 16 + low)
}

// Reads bytes into `into`, two hex digits each, as far as there is room. The value is how many they are.
fn read_bytes(s: &[u8], from: usize, into: &mut [u8]) -> Read<usize>
    ensures count { result.value ≡ length (bytes_from (length into.old) s.now from) }
    ensures place { result.next ≡ from + 2 * result.value }
    ensures stored { into.new ≡ sets into.old 0 (bytes_from (length into.old) s.now from) }
    ensures len_in_bounds { result.value ≤ length into.new }
{
    let mut read = Read {
        value: 0,
        next: from,
    };
    for room in into.iter_mut() {
        let Some(b) = read_byte(s, read.next) else {
            return read;
        };
        *room = b;
        read = Read {
            value: read.value + 1,
            next: read.next + 2,
        };
    }
    read
}

// Reads a word into `into`: `-` for the empty one, else two hex digits for each byte, as far as there is room. The value is its length.
#[tactic(auto, unfolding(crate::specs::Fields::word_at, crate::specs::Fields::word_bytes))]
pub fn read_word(s: &[u8], c: Option<usize>, into: &mut [u8]) -> Option<Read<usize>>
    ensures len_in_bounds { IfSome result (λ r. r.value ≤ length into.new) }
    ensures rule { ReadsWord s.now c into.old into.new result }
{
    if let Some(next) = lines::skip(s, c, b'-') {
        return Some(Read { value: 0, next });
    }
    let read = read_bytes(s, c?, into);
    if read.value == 0 {
        return None;
    }
    Some(read)
}
