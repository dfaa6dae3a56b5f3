// Prologue and epilogue sequences for C: a static library, whose functions call those of ppc and say the same. (For C and Rust the bytes
// are two arguments, their address and their length.)
#![tactic(auto)]

ghost use Rattle.std.specs.Prelude.{◌≡◌};
ghost use Rattle.rules.specs.Bytes.{words_at};
ghost use Rattle.rules.specs.Sequences as rules;

// Whether a prologue begins at an address.
#[unsafe(no_mangle)]
pub extern "C" fn check_prologue_sequence(bytes: &[u8], base: u32, addr: u32) -> bool
    ensures { result ≡ rules.check_prologue_sequence (words_at base bytes.now addr) }
{
    ppc::sequences::check_prologue_sequence(bytes, base, addr)
}

// Whether an epilogue begins at an address.
#[unsafe(no_mangle)]
pub extern "C" fn check_epilogue_sequence(bytes: &[u8], base: u32, addr: u32) -> bool
    ensures { result ≡ rules.check_epilogue_sequence (words_at base bytes.now addr) }
{
    ppc::sequences::check_epilogue_sequence(bytes, base, addr)
}
