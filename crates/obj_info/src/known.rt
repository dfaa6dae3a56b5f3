// What is known beforehand: symbols and skip ranges.
ghost use Rattle.std.specs.Prelude.{◌≡◌, ◌≤◌, map, length};
ghost use Rattle.rules.specs.Image as images;
ghost use Rattle.rules.specs.JumpTable.{known_size};
ghost use Rattle.rules.specs.Map.{Capacity, skip_range};
ghost use Rattle.rules.specs.Step.{Around, symbol_over};
ghost use Rattle.obj_info.specs.Info.{image_of, table_image, some_nonzero, symbol_in};

use crate::info::{ObjInfo, TableInfo};
use obj::{skips, symbols};

impl<'a> TableInfo<'a> {
    /// The known size, if it is not 0, of the object symbol at an address.
    pub fn known_size(&self, a: u32) -> Option<u32>
        ensures { result ≡ some_nonzero (known_size a (table_image self.now).objects) }
    {
        match symbols::known_size(self.sections, self.objects, a) {
            0 => None,
            size => Some(size),
        }
    }
}

impl<'a> ObjInfo<'a> {
    /// The function symbols, ascending: address, size, and 1 where the size is known.
    pub fn functions(&self) -> &'a [[u32; 3]]
        ensures all { map symbol_in result.now ≡ (image_of self.now).functions }
        ensures few { length result.now ≤ 1024 }
    {
        self.functions.as_chunks::<3>().0
    }

    /// The last function symbol below an address of code, if its size covers the address.
    pub fn symbol_over(&self, target: u64) -> Option<u64>
        ensures { (e : Around) → e.image ≡ image_of self.now → result ≡ some_nonzero (symbol_over e target) }
    {
        match symbols::symbol_over(self.functions, self.code, target) {
            0 => None,
            key => Some(key),
        }
    }

    /// The known size, if it is not 0, of the object symbol at an address.
    pub fn known_size(&self, a: u32) -> Option<u32>
        ensures { result ≡ some_nonzero (known_size a (image_of self.now).objects) }
    {
        self.tables().known_size(a)
    }

    /// Whether an address lies in a skip range.
    pub fn in_skipped_range(&self, a: u32) -> bool
        ensures { result ≡ images.in_skipped_range (image_of self.now) a }
    {
        skips::in_skipped_range(self.skips, a)
    }

    /// Over one skip range: where the one that holds an address ends, else the address.
    pub fn skip_range(&self, a: u32) -> u32
        ensures { (room : Capacity) → result ≡ skip_range (image_of self.now) room a }
    {
        skips::skip_range(self.skips, a)
    }
}
