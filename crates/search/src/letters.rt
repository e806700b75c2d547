// Comparing the needle with a window of the haystack, which starts at `at`, from an index up and from an index down.
// The count of comparisons follows from the index where a loop ends, so that no loop counts. They go by an index of the whole needle, and
// not by parts of the two, with which a search took half as long again.
ghost use Rattle.std.specs.Prelude.{◌≡◌, ◌+◌, ◌<◌, ◌≤◌, length};
ghost use Rattle.words.specs.Word.{front};
ghost use Rattle.search.specs.Code.{first_up, agree_down};

// Reads a letter: the one place of this crate that does.
pub(crate) fn letter(word: &[u8], i: usize) -> u8
    requires { i < length word.now }
    ensures { result ≡ (front word.now).letter i }
{
    word[i]
}

// The first needle index from `from` on, and below `to`, at which they differ; `to` if there is none.
pub(crate) fn first_up(haystack: &[u8], needle: &[u8], at: usize, from: usize, to: usize) -> usize
    requires { (from ≤ to) × (to ≤ length needle.now) × (at + length needle.now ≤ length haystack.now) }
    ensures rule { result ≡ first_up (front needle.now) (front haystack.now) at from to }
    ensures on { from ≤ result }
{
    for i in from..to {
        if letter(needle, i) != letter(haystack, at + i) {
            return i;
        }
    }
    to
}

// How many letters agree from index `from` - 1 down, as far as index `to`.
pub(crate) fn agree_down(haystack: &[u8], needle: &[u8], at: usize, from: usize, to: usize) -> usize
    requires { (from ≤ length needle.now) × (at + length needle.now ≤ length haystack.now) }
    ensures { result ≡ agree_down (front needle.now) (front haystack.now) at from to }
{
    for i in (to..from).rev() {
        if letter(needle, i) != letter(haystack, at + i) {
            return from - (i + 1);
        }
    }
    from.saturating_sub(to)
}
