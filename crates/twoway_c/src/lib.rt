// The whole searches for C: the archive behind include/twoway.h. A part of memory is handed in as its address and its length.
#![tactic(auto)]

ghost use Rattle.std.specs.Prelude.{◌≡◌};
ghost use Rattle.twoway.specs.Find.{find_rule, rfind_rule, code_of};

#[unsafe(no_mangle)]
pub extern "C" fn twoway_find(text: &[u8], pattern: &[u8]) -> u64
    ensures { result ≡ code_of (find_rule text.now pattern.now).position }
{
    twoway::twoway_find(text, pattern)
}

#[unsafe(no_mangle)]
pub extern "C" fn twoway_rfind(text: &[u8], pattern: &[u8]) -> u64
    ensures { result ≡ code_of (rfind_rule text.now pattern.now).position }
{
    twoway::twoway_rfind(text, pattern)
}
