// The fingerprint of a byte string: a set of 64 bits that rules a byte out in one test.
#![tactic(auto)]

ghost use Rattle.std.specs.Prelude.{◌≡◌, true, ℕ, ◌<◌, length, get_or};
ghost use Rattle.byteset.specs.Fingerprint.{bit_of, fingerprint, has};

// The bit that a byte sets. It is below 64, which a shift of a u64 asks.
#[tactic(auto, unfolding(crate::specs::Fingerprint::bit_of))]
fn bit_of(byte: u8) -> u64
    ensures bit { result ≡ bit_of byte }
    ensures in_range { result < 64 }
{
    u64::from(byte & 63)
}

// The bits of all of `bytes`. There are 64 bits for 256 bytes, so bytes share them.
pub fn byteset_create(bytes: &[u8]) -> u64
    ensures set { result ≡ fingerprint bytes.now }
    ensures never_no { (i : ℕ) → i < length bytes.now → has result (get_or bytes.now i 0) ≡ true }
{
    let mut byteset: u64 = 0;
    for byte in bytes {
        byteset |= 1 << bit_of(*byte);
    }
    byteset
}

// Whether the bit of `byte` is set. A yes may be due to another byte that shares the bit; a no is never wrong.
pub fn byteset_contains(byteset: u64, byte: u8) -> bool
    ensures { result ≡ has byteset byte }
{
    (byteset >> bit_of(byte)) & 1 != 0
}
