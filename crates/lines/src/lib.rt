// Where reading stands in a case line, and what stands in the line as it is: a byte, a script, the end.
//
// Where reading stands is an `Option<usize>`: at a byte of the line, or nowhere, once something was not of its form. Then it stays so.
#![tactic(auto)]

ghost use Rattle.std.specs.Prelude.{◌≡◌, ◌+◌, ◌≤◌, length};
ghost use Rattle.lines.specs.Reading.{is_end, first_index, is_letter, is_script, skipped};

// What a reader read, and where the next one starts.
#[derive(Clone, Copy)]
pub struct Read<T> {
    pub value: T,
    pub next: usize,
}

// Whether a script may have the byte `b`.
fn is_letter(b: u8) -> bool
    ensures rule { result ≡ is_letter b }
{
    matches!(b, b'f' | b'b' | b'F' | b'B')
}

// Whether the whole line is read.
pub fn is_end(s: &[u8], c: Option<usize>) -> bool
    ensures rule { result ≡ is_end (length s.now) c }
{
    c == Some(s.len())
}

// The place of the first `b`, or the length where there is none.
pub fn until(s: &[u8], b: u8) -> usize
    ensures upper_bound { result ≤ length s.now }
    ensures rule { result ≡ first_index b s.now }
{
    s.iter().position(|x| *x == b).unwrap_or(s.len())
}

// Reads the byte `b`.
#[tactic(auto, unfolding(crate::specs::Reading::skipped))]
pub fn skip(s: &[u8], c: Option<usize>, b: u8) -> Option<usize>
    ensures rule { result ≡ skipped s.now c b }
{
    let at = c?;
    if *s.get(at)? != b {
        return None;
    }
    Some(at + 1)
}

// Whether `s` is a script: one letter or more.
pub fn is_script(s: &[u8]) -> bool
    ensures rule { result ≡ is_script s.now }
{
    !s.is_empty() && s.iter().all(|b| is_letter(*b))
}
