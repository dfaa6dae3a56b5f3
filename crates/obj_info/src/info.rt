// The checked image, and what jump tables are read by.
ghost use Rattle.std.specs.Prelude.{◌≡◌, [], true};
ghost use Rattle.rules.specs.Check as rules;
ghost use Rattle.obj_image.specs.Lent.{lent, given};
ghost use Rattle.obj.specs.Sections.{IsCode};
ghost use Rattle.obj_rows.specs.Symbols.{KeysAscend};
ghost use Rattle.obj_info.specs.Ascending.{keys_ascend_prop};

use obj::sections::Code;

/// An image with what is known of it beforehand, in lent lists (`obj` says what their numbers are) that passed checks 1 to 3.
#[derive(Clone, Copy)]
pub struct ObjInfo<'a> {
    pub(crate) sections: &'a [u32],
    pub(crate) bytes: &'a [u8],
    pub(crate) outcomes: &'a [u32],
    pub(crate) functions: &'a [u32],
    pub(crate) objects: &'a [u32],
    pub(crate) skips: &'a [u32],
    pub(crate) entry: &'a [u32],
    pub(crate) code: Code,
    pub ghost checked: { rules.check
        (given (lent sections.now bytes.now outcomes.now functions.now objects.now skips.now entry.now)) ≡ 0 },
    pub ghost is_code: { IsCode (lent sections.now bytes.now outcomes.now functions.now objects.now skips.now entry.now) code },
}

/// What jump tables are read by: sections with their bytes, which passed check 1, and object symbols, whose keys ascend.
#[derive(Clone, Copy)]
pub struct TableInfo<'a> {
    pub(crate) sections: &'a [u32],
    pub(crate) bytes: &'a [u8],
    pub(crate) objects: &'a [u32],
    pub ghost passed: { rules.check_image (given (lent sections.now bytes.now [] [] [] [] [])) ≡ true },
    pub ghost objects_ascend: { KeysAscend sections.now objects.now } by { keys_ascend_prop sections.now objects.now },
}
