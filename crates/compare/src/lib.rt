// How far two byte strings agree, from the front.
#![tactic(auto)]

ghost use Rattle.std.specs.Prelude.{◌≡◌};
ghost use Rattle.compare.specs.Agree.{agree};

// How many letters of two words agree, from the front, up to the end of the shorter one.
pub fn agree(left: &[u8], right: &[u8]) -> usize
    ensures { result ≡ agree left.now right.now }
{
    let n = number::smaller(left.len(), right.len());
    for i in 0..n {
        if left[i] != right[i] {
            return i;
        }
    }
    n
}
