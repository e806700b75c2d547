// Finding a pattern in a text, from the front and from the back, and the same for C.
#![tactic(auto)]

ghost use Rattle.std.specs.Prelude.{◌≡◌};
ghost use Rattle.limits.specs.Said.{said};
ghost use Rattle.scan.specs.Scanned.{scan_of};
ghost use Rattle.searcher.specs.Walk.{told as call_told};
ghost use Rattle.twoway.specs.Find.{position_said, search_told, told, of_match, empty_place, match_of, by_scan, by_walk, searched, find_rule, rfind_rule, code_of};
ghost use Rattle.twoway.specs.Meaning.{FindMeaning, RfindMeaning, SearchBounded};

use limits::Refusal;
use scan::Scan;
use searcher::{Counts, Matched, Mode, TwoWaySearcher};

// What a search answers: where it found the pattern, or nothing, or why it did not look; and what it cost.
#[derive(Clone, Copy)]
pub struct Answer {
    pub position: Result<Option<usize>, Refusal>,
    pub counts: Counts,
}

fn answered(
    position: Result<Option<usize>, Refusal>,
    preparing: usize,
    comparisons: usize,
    tests: usize,
) -> Answer
    ensures { search_told result ≡ told (position_said position) preparing comparisons tests }
{
    Answer {
        position,
        counts: Counts {
            preparing,
            comparisons,
            tests,
        },
    }
}

// A match as a position: its start.
fn of_match(found: Result<Option<(usize, usize)>, Refusal>) -> Result<Option<usize>, Refusal>
    ensures { position_said result ≡ of_match (said found) }
{
    match found {
        Ok(Some((k, _))) => Ok(Some(k)),
        Ok(None) => Ok(None),
        Err(why) => Err(why),
    }
}

// What a scan answers, and what a walk's next match does, as the answer of a whole search.
fn by_scan(s: Scan) -> Answer
    ensures { search_told result ≡ by_scan s }
{
    answered(Ok(s.found), 0, s.comparisons, 0)
}

fn by_walk(preparing: usize, r: Matched) -> Answer
    ensures { search_told result ≡ by_walk preparing (call_told r) }
{
    answered(
        of_match(r.answer),
        preparing,
        r.counts.comparisons,
        r.counts.tests,
    )
}

// Where an empty pattern is: everywhere, so at the end that a search begins at.
fn empty_place<const BACKWARD: bool>(n: usize) -> usize
    ensures { result ≡ empty_place BACKWARD n }
{
    if BACKWARD { n } else { 0 }
}

fn scan_for<const BACKWARD: bool>(x: u8, text: &[u8]) -> Scan
    ensures { result ≡ scan_of BACKWARD x text.now }
{
    if BACKWARD {
        scan::memrchr(x, text)
    } else {
        scan::memchr(x, text)
    }
}

fn first_match<const BACKWARD: bool>(walk: TwoWaySearcher, text: &[u8], pattern: &[u8]) -> Matched
    ensures { call_told result ≡ match_of BACKWARD pattern.now text.now walk }
{
    if BACKWARD {
        walk.next_match_back(text, pattern)
    } else {
        walk.next_match(text, pattern)
    }
}

// A whole search. Each direction has its own copy: where one serves both at run time, the compiler runs short of registers in the loops
// over windows, and a search takes up to a quarter longer.
fn search<const BACKWARD: bool>(text: &[u8], pattern: &[u8]) -> Answer
    ensures { search_told result ≡ searched BACKWARD text.now pattern.now }
{
    if let Err(why) = limits::check_lengths(text.len(), pattern.len()) {
        return answered(Err(why), 0, 0, 0);
    }
    if pattern.is_empty() {
        return answered(Ok(Some(empty_place::<BACKWARD>(text.len()))), 0, 0, 0);
    }
    if pattern.len() == 1 {
        return by_scan(scan_for::<BACKWARD>(pattern[0], text));
    }
    let p = TwoWaySearcher::new(pattern, text.len(), Mode::NonOverlapping);
    by_walk(
        p.counts.preparing,
        first_match::<BACKWARD>(p.walk, text, pattern),
    )
}

// The first occurrence of `pattern` in `text`.
pub fn find_bytes(text: &[u8], pattern: &[u8]) -> Answer
    ensures rule { search_told result ≡ find_rule text.now pattern.now }
    ensures meaning { FindMeaning text.now pattern.now (search_told result) }
    ensures bounds { SearchBounded text.now pattern.now result.counts }
{
    search::<false>(text, pattern)
}

// The last occurrence of `pattern` in `text`.
pub fn rfind_bytes(text: &[u8], pattern: &[u8]) -> Answer
    ensures rule { search_told result ≡ rfind_rule text.now pattern.now }
    ensures meaning { RfindMeaning text.now pattern.now (search_told result) }
    ensures bounds { SearchBounded text.now pattern.now result.counts }
{
    search::<true>(text, pattern)
}

// A position as the C functions give it: 2^64-1 for nothing, and 2^64-1-k for refusal number k.
fn code(position: Result<Option<usize>, Refusal>) -> u64
    ensures { result ≡ code_of (position_said position) }
{
    match position {
        Ok(Some(k)) => k as u64,
        Ok(None) => u64::MAX,
        Err(why) => u64::MAX - limits::number(why) as u64,
    }
}

// What the C functions of these names answer; crate twoway_c exports them.
pub fn twoway_find(text: &[u8], pattern: &[u8]) -> u64
    ensures { result ≡ code_of (find_rule text.now pattern.now).position }
{
    code(find_bytes(text, pattern).position)
}

pub fn twoway_rfind(text: &[u8], pattern: &[u8]) -> u64
    ensures { result ≡ code_of (rfind_rule text.now pattern.now).position }
{
    code(rfind_bytes(text, pattern).position)
}
