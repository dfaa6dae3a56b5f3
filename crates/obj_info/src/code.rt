// The code section: its words, and what each does.
ghost use Rattle.std.specs.Prelude.{◌≡◌, ◌==◌, ◌<◌, ◌≤◌, ◌+◌, IfSome, IfNone, length, true};
ghost use Rattle.rules.specs.Address.{address_of};
ghost use Rattle.rules.specs.Bytes.{words_in};
ghost use Rattle.rules.specs.Image as images;
ghost use Rattle.obj.specs.Sections.{IsCode};
ghost use Rattle.obj.specs.Outcomes.{told_for, goes_on as goes};
ghost use Rattle.obj_info.specs.Info.{lent_of, image_of, some_nonzero, some_word, index_in_code, index_within};

use crate::info::ObjInfo;
use crate::keys::{address_of, section_of};
use obj::outcomes::Told;
use obj::sections::Code;

impl<'a> ObjInfo<'a> {
    /// The code section's number, and where it lies.
    pub fn code(&self) -> Code
        ensures is { IsCode (lent_of self.now) result }
        ensures number { result.number ≤ 8 }
        ensures end { result.base + result.size ≤ 0xF000_0000 }
    {
        self.code
    }

    /// The code section's bytes.
    pub fn code_bytes(&self) -> &'a [u8]
        ensures words { words_in result.now ≡ (images.code_section (image_of self.now)).words }
        ensures len { length result.now ≡ (images.code_section (image_of self.now)).size }
    {
        let from = self.code.offset;
        &self.bytes[from..from + self.code.size as usize]
    }

    // Whether a 32-bit address lies inside the code section.
    fn is_inside(&self, a: u32) -> bool
        ensures { result ≡ images.contains (images.code_section (image_of self.now)) a }
    {
        let a = u64::from(a);
        let base = u64::from(self.code.base);
        let past = base + u64::from(self.code.size);
        (base <= a) & (a < past)
    }

    /// Whether an address is of the code section, and inside it.
    pub fn is_code_address(&self, key: u64) -> bool
        ensures { result ≡ images.in_code (image_of self.now) key }
    {
        (section_of(key) == self.code.number) & self.is_inside(address_of(key))
    }

    /// Which of the code words lies at an address: below 65,536.
    pub fn index(&self, key: u64) -> Option<usize>
        ensures value { result ≡ index_in_code (image_of self.now) key }
        ensures bound { IfSome result (λ i. i < 65536) }
    {
        if self.is_code_address(key) {
            Some((address_of(key) - self.code.base) as usize / 4)
        } else {
            None
        }
    }

    /// Which of the code words lies at the 32-bit address of a key, whatever section it names.
    pub fn word_index(&self, key: u64) -> Option<usize>
        ensures value { result ≡ index_within (image_of self.now) key }
        ensures bound { IfSome result (λ i. i < 65536) }
    {
        let a = address_of(key);
        if !self.is_inside(a) {
            return None;
        }
        Some((a - self.code.base) as usize / 4)
    }

    /// The code word at a 32-bit address.
    pub fn word(&self, a: u32) -> Option<u32>
        ensures value { result ≡ some_word (images.word (image_of self.now) a) }
        ensures none { IfNone result (images.word (image_of self.now) a ≡ images.no_word) }
    {
        if !self.is_inside(a) {
            return None;
        }
        Some(self.word_at(u64::from(a)))
    }

    /// Whether the code word at a 32-bit address is this one.
    pub fn is_word(&self, a: u32, other: u32) -> bool
        ensures { result ≡ (images.word (image_of self.now) a == other) }
    {
        match self.word(a) {
            Some(word) => word == other,
            None => false,
        }
    }

    /// The code word at an address that lies in the code section, whatever section its key names.
    pub fn word_at(&self, key: u64) -> u32
        requires { images.contains (images.code_section (image_of self.now)) (address_of key) ≡ true }
        ensures { result ≡ images.word (image_of self.now) (address_of key) }
    {
        let i = (address_of(key) - self.code.base) as usize / 4;
        ppc::words::word_at(self.bytes, self.code.offset + i * 4)
    }

    /// What the code word at such an address does.
    pub fn told_at(&self, key: u64) -> Told
        requires { images.contains (images.code_section (image_of self.now)) (address_of key) ≡ true }
        ensures { told_for result ≡ images.told_at (image_of self.now) key }
    {
        obj::outcomes::told_at(self.outcomes, self.code, key)
    }

    /// Whether the code word with a number, counted from 0, goes on.
    pub fn goes_on(&self, word: usize) -> bool
        requires { word < images.code_words (image_of self.now) }
        ensures { result ≡ goes (image_of self.now) word }
    {
        obj::outcomes::goes_on(self.outcomes, word)
    }

    /// The entry point.
    pub fn entry(&self) -> Option<u64>
        ensures { result ≡ some_nonzero (image_of self.now).entry }
    {
        match self.entry {
            [a, ..] => {
                let a = *a;
                Some(self.code.number * 0x1_0000_0000 + u64::from(a))
            }
            [] => None,
        }
    }
}
