// A word of the last section: its bytes, and how many bytes of the section are given.
ghost use Rattle.std.specs.Prelude.{◌≡◌, ◌+◌, ◌≤◌, length, take};
ghost use Rattle.reading.specs.LastRows as ends;
ghost use Rattle.reading.specs.LastRows.{Now, PutWord, WordAdded};

use crate::rows::Count;

// 0 for no section, 1 for one of code, 2 for another.
pub fn last_kind(sections: &[u32], count: usize) -> u32
    requires { count ≤ length sections.now }
    ensures { result ≡ ends.last_kind (take count sections.now) }
{
    if count < 4 {
        return 0;
    }
    if sections[count - 4] == 1 {
        return 1;
    }
    2
}

fn put_word(bytes: &mut [u8], count: usize, w: u32)
    requires { count + 4 ≤ length bytes.old }
    ensures { PutWord count w bytes.old bytes.new }
{
    bytes[count..count + 4].copy_from_slice(&w.to_be_bytes());
}

// A word more of the last section. Where there is no room, nothing is put.
pub fn add_word(sections: &mut [u32], count: usize, bytes: &mut [u8], m: usize, w: u32) -> Count
    requires { (4 ≤ count) × (count ≤ length sections.old) × (m ≤ length bytes.old) }
    ensures { WordAdded count m w sections.old sections.new bytes.old bytes.new
        result }
{
    let given = sections[count - 1];
    if given > 0xEFFF_FFFC {
        return Count {
            ok: false,
            count: m,
        };
    }
    if bytes.len() - m < 4 {
        return Count {
            ok: false,
            count: m,
        };
    }
    put_word(bytes, m, w);
    sections[count - 1] = given + 4;
    Count {
        ok: true,
        count: m + 4,
    }
}
