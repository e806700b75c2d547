// Printing an answer into a room. What does not fit is left out; the place behind it is then the end of the room. So all was printed
// where the place is before the end.
#![tactic(auto)]

ghost use Rattle.std.specs.Prelude.{◌≡◌, ◌+◌, ◌*◌, length};
ghost use Rattle.std.specs.Fmt.{decimal};
ghost use Rattle.std.specs.Slice.Iter.{iter_rest};
ghost use Rattle.printing.specs.InRoom.{InRoom};
ghost use Rattle.printing.specs.Printing.{Prints, hex_text, spent, left_of, part_text, form_text};

use std::slice::Iter;

// Prints `text` at `at`, and gives the place behind it.
fn put(out: &mut [u8], at: usize, text: &[u8]) -> usize
    ensures { Prints out.old at text.now out.new result }
{
    let at = at.min(out.len());
    let fits = text.len().min(out.len() - at);
    out[at..at + fits].copy_from_slice(&text[..fits]);
    at + fits
}

// Prints a number in decimal digits.
fn put_number(out: &mut [u8], at: usize, n: usize) -> usize
    ensures { Prints out.old at (decimal n) out.new result }
{
    let mut buffer = itoa::Buffer::new();
    put(out, at, buffer.format(n).as_bytes())
}

// Prints a set in 16 hex digits.
fn put_set(out: &mut [u8], at: usize, set: u64) -> usize
    ensures { Prints out.old at (hex_text set) out.new result }
{
    let mut digits = [0u8; 16];
    let count = io::hex(set, 16, &mut digits);
    put(out, at, &digits[..count])
}

// The number that the byte `b` of a form stands for: for a mark the next of those that are left, as long as there are some.
#[tactic(auto, unfolding(crate::specs::Printing::spent))]
fn spend(b: u8, left: &mut Iter<usize>) -> Option<usize>
    ensures rule { result ≡ spent b (iter_rest left.old) }
    ensures rest { iter_rest left.new ≡ left_of result (iter_rest left.old) }
{
    match b {
        b'#' | b'%' => left.next().copied(),
        _ => None,
    }
}

// Prints a byte of a form, or the number that it stands for: in hex digits for `%`, else in decimal ones.
fn put_part(out: &mut [u8], at: usize, b: u8, number: Option<usize>) -> usize
    ensures { Prints out.old at (part_text number b) out.new result }
{
    match number {
        None => put(out, at, &[b]),
        Some(set) if b == b'%' => put_set(out, at, set as u64),
        Some(number) => put_number(out, at, number),
    }
}

// Prints a form, with the next of the numbers in place of each of its marks: `#` for a number in decimal digits, `%` for a set in hex ones.
pub fn put_form(out: &mut [u8], start: usize, form: &[u8], numbers: &[usize]) -> usize
    ensures in_room { InRoom out.new (start + length form.now + 19 * length numbers.now) result }
    ensures rule { Prints out.old start (form_text form.now numbers.now) out.new result }
{
    let mut at = start.min(out.len());
    let mut left = numbers.iter();
    for &b in form {
        at = put_part(out, at, b, spend(b, &mut left));
    }
    at
}
