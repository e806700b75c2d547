#![tactic(auto)]

ghost use Rattle.std.specs.Prelude.{◌≡◌, ltb};
ghost use Rattle.limits.specs.Bounds.{haystack_bound, needle_bound};
ghost use Rattle.limits.specs.Checks.{lengths};
ghost use Rattle.limits.specs.Refusals.{number_of};

// The most bytes that a haystack may have, and a needle.
pub const HAYSTACK_BOUND: usize = 67_108_864;

pub const NEEDLE_BOUND: usize = 65_536;

// Why a public call refuses, with the number that it is given by. Nothing else is refused. No call refuses an empty needle now; the
// number stays, for a call to come.
#[derive(Clone, Copy)]
pub enum Refusal {
    HaystackTooLong = 1,
    NeedleTooLong = 2,
    EmptyNeedle = 3,
    StateDoesNotFit = 4,
    StepOverlapping = 5,
}

// The number that a refusal is given by.
pub fn number(refusal: Refusal) -> u8
    ensures { result ≡ number_of refusal }
{
    refusal as u8
}

// Callers ask the two functions below and never compare with a bound themselves, so that a bound stands in one place.
fn haystack_too_long(n: usize) -> bool
    ensures { result ≡ ltb haystack_bound n }
{
    HAYSTACK_BOUND < n
}

// Check 2 alone, which is all that the maximal suffix calls make.
pub fn needle_too_long(m: usize) -> bool
    ensures { result ≡ ltb needle_bound m }
{
    NEEDLE_BOUND < m
}

// Checks 1 and 2: the lengths are within the bounds, or the first that is not refuses.
pub fn check_lengths(n: usize, m: usize) -> Result<(), Refusal>
    ensures { result ≡ lengths n m }
{
    if haystack_too_long(n) {
        return Err(Refusal::HaystackTooLong);
    }
    if needle_too_long(m) {
        return Err(Refusal::NeedleTooLong);
    }
    Ok(())
}
