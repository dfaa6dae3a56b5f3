// An address with its section is one number, its key: the section's number before the 32-bit address.
ghost use Rattle.std.specs.Prelude.{◌≡◌};
ghost use Rattle.rules.specs.Address.{address_of, section_of};

/// The 32-bit address of a key.
pub fn address_of(key: u64) -> u32
    ensures { result ≡ address_of key }
{
    (key % 0x1_0000_0000) as u32
}

/// The number of a key's section, counted from 1.
pub fn section_of(key: u64) -> u64
    ensures { result ≡ section_of key }
{
    key / 0x1_0000_0000
}
