#![tactic(auto)]

ghost use Rattle.std.specs.Prelude.{◌≡◌, cond, not, [], ◌∷◌, ◌+◌, ◌-◌, ◌<◌, ◌≤◌, eqb};
ghost use Rattle.std.specs.List.{list_all};
ghost use Rattle.words.specs.Word.{front, back};
ghost use Rattle.words.specs.Choice.{FindsLeast, FindsGreatest};
ghost use Rattle.words.specs.Occurs.{Occurs};
ghost use Rattle.scan.specs.Scanned.{before, from_front, from_back, scan_of};

// What a scan answers: the place, and how many bytes it compared.
#[derive(Clone, Copy)]
pub struct Scan {
    pub found: Option<usize>,
    pub comparisons: usize,
}

// A scan looks at eight bytes a round. Where there are enough it looks at eight rounds as one block, and asks which of them holds the
// byte only if the block does.
const ROUND: usize = 8;

const BLOCK: usize = 8 * ROUND;

// Whether none of `bytes` is `x`. All of them are looked at, in rising order, and the loop has one way out: in this shape the compiler
// compares sixteen of them at once.
fn without(x: u8, bytes: &[u8]) -> bool
    ensures { result ≡ list_all (λ y. not (eqb y x)) bytes.now }
{
    let mut clear = true;
    for byte in bytes {
        clear &= *byte != x;
    }
    clear
}

// Where the next `width` letters start in a text of which `passed` letters are passed and `left` are left, read from the front or from
// the back.
fn start<const BACKWARD: bool>(passed: usize, left: usize, width: usize) -> usize
    requires { width ≤ left }
    ensures { result ≡ cond BACKWARD (left - width) passed }
{
    if BACKWARD { left - width } else { passed }
}

// Passes letters that are not `x`, `width` at a time, of the text read from the front, or from the back: the first that is `x`, or the
// end, is then less than `width` letters ahead.
fn pass<const BACKWARD: bool>(x: u8, text: &[u8], passed: usize, width: usize) -> usize
    requires passed_bound { passed ≤ before x (cond BACKWARD (back text.now) (front text.now)) }
    requires wide { 0 < width }
    ensures upper_bound { result ≤ before x (cond BACKWARD (back text.now) (front text.now)) }
    ensures near { before x (cond BACKWARD (back text.now) (front text.now)) < result + width }
{
    let mut at = passed;
    while width <= text.len() - at {
        let from = start::<BACKWARD>(at, text.len() - at, width);
        if !without(x, &text[from..from + width]) {
            break;
        }
        at += width;
    }
    at
}

// The first byte of `text` that is `x`, read from the front, or from the back.
fn scanned<const BACKWARD: bool>(x: u8, text: &[u8]) -> Scan
    ensures { result ≡ scan_of BACKWARD x text.now }
{
    let blocks = pass::<BACKWARD>(x, text, 0, BLOCK);
    let rounds = pass::<BACKWARD>(x, text, blocks, ROUND);
    let passed = pass::<BACKWARD>(x, text, rounds, 1);
    if passed < text.len() {
        return Scan {
            found: Some(start::<BACKWARD>(passed, text.len() - passed, 1)),
            comparisons: passed + 1,
        };
    }
    Scan {
        found: None,
        comparisons: text.len(),
    }
}

// The first byte of `text` that is `x`.
pub fn memchr(x: u8, text: &[u8]) -> Scan
    ensures rule { result ≡ from_front x text.now }
    ensures meaning { FindsLeast (Occurs (front (x ∷ [])) (front text.now)) result.found }
{
    scanned::<false>(x, text)
}

// The last byte of `text` that is `x`.
pub fn memrchr(x: u8, text: &[u8]) -> Scan
    ensures rule { result ≡ from_back x text.now }
    ensures meaning { FindsGreatest (Occurs (front (x ∷ [])) (front text.now)) result.found }
{
    scanned::<true>(x, text)
}
