// When a record fits a needle and a haystack.
ghost use Rattle.std.specs.Prelude.{◌≡◌};
ghost use Rattle.record.specs.Fits.{fits_long, fits_short, fits_splits, fits};

use crate::kinds::flags_of;
use crate::{Fixed, Memory, Moving};

#[tactic(auto, unfolding(crate::specs::Fits::fits_long))]
fn fits_long(m: usize, c: usize, b: usize, p: usize) -> bool
    ensures { result ≡ fits_long m c b p }
{
    1 <= c && c < m && b == c && p == number::larger(c, m - c) + 1
}

#[tactic(auto, unfolding(crate::specs::Fits::fits_short))]
fn fits_short(m: usize, c: usize, b: usize, p: usize, forward: usize, backward: usize) -> bool
    ensures { result ≡ fits_short m c b p forward backward }
{
    c < p
        && p <= m
        && m - p < b
        && b <= m
        && (forward == 0 || forward == m - p)
        && (backward == m || backward == p)
}

// Whether the splits, the period and the memories fit a needle of m bytes.
fn fits_splits(m: usize, c: usize, b: usize, p: usize, memory: Memory) -> bool
    ensures { result ≡ fits_splits m c b p memory }
{
    match memory {
        Memory::Long => fits_long(m, c, b, p),
        Memory::Short { forward, backward } => fits_short(m, c, b, p, forward, backward),
    }
}

#[tactic(auto, unfolding(crate::specs::Fits::fits))]
pub fn fits(haystack: &[u8], needle: &[u8], fixed: Fixed, moving: Moving) -> bool
    ensures { result ≡ fits needle.now haystack.now fixed moving }
{
    let kind_fits = if flags_of(moving.kind).empty {
        needle.is_empty()
    } else {
        fits_splits(
            needle.len(),
            fixed.crit_pos,
            fixed.crit_pos_back,
            fixed.period,
            moving.memory,
        )
    };
    fixed.needle_len == needle.len()
        && fixed.haystack_len == haystack.len()
        && moving.position <= haystack.len()
        && moving.end <= haystack.len()
        && kind_fits
}
