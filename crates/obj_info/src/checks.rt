// The checks.
ghost use Rattle.std.specs.Prelude.{◌≡◌, IfOk, IfErr, [], true};
ghost use Rattle.rules.specs.Check as rules;
ghost use Rattle.obj_image.specs.Lent.{lent, given};
ghost use Rattle.faults.specs.Number.{number_of};
ghost use Rattle.obj_rows.specs.Symbols.{KeysAscend};
ghost use Rattle.obj_info.specs.Info.{lent_of, tables_of, table_lent};

use crate::info::{ObjInfo, TableInfo};
use faults::Fault;
use obj::checks::check;
use obj::sections::code_section;

impl<'a> ObjInfo<'a> {
    /// The image in these lists, or the first of the checks 1 to 3 that fails.
    pub fn new(
        sections: &'a [u32],
        bytes: &'a [u8],
        outcomes: &'a [u32],
        functions: &'a [u32],
        objects: &'a [u32],
        skips: &'a [u32],
        entry: &'a [u32],
    ) -> Result<Self, Fault>
        ensures ok { IfOk result (λ info.
            lent_of info ≡ lent sections.now bytes.now outcomes.now functions.now objects.now skips.now entry.now) }
        ensures err { IfErr result (λ e. number_of e ≡ rules.check
            (given (lent sections.now bytes.now outcomes.now functions.now objects.now skips.now entry.now))) }
    {
        match check(sections, bytes, outcomes, functions, objects, skips, entry) {
            0 => Ok(ObjInfo {
                sections,
                bytes,
                outcomes,
                functions,
                objects,
                skips,
                entry,
                code: code_section(sections),
            }),
            1 => Err(Fault::Image),
            2 => Err(Fault::Outcome),
            _ => Err(Fault::List),
        }
    }

    /// Those of its lists that jump tables are read by.
    pub fn tables(&self) -> TableInfo<'a>
        ensures { table_lent result ≡ tables_of (lent_of self.now) }
    {
        TableInfo::new(self.sections, self.bytes, self.objects)
    }
}

impl<'a> TableInfo<'a> {
    /// Of lists that are known to pass.
    pub fn new(sections: &'a [u32], bytes: &'a [u8], objects: &'a [u32]) -> Self
        requires passed { rules.check_image (given (lent sections.now bytes.now [] [] [] [] [])) ≡ true }
        requires objects { KeysAscend sections.now objects.now }
        ensures { table_lent result ≡ lent sections.now bytes.now [] [] objects.now [] [] }
    {
        TableInfo {
            sections,
            bytes,
            objects,
        }
    }
}
