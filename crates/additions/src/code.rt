// Addresses in the code section, with the section's number.
ghost use Rattle.std.specs.Prelude.{◌≡◌, ◌<◌};
ghost use Rattle.rules.specs.Address.{key};
ghost use Rattle.rules.specs.Image.{code_number};
ghost use Rattle.rules.specs.Map as rules;
ghost use Rattle.obj_info.specs.Info.{image_of};

use obj_info::ObjInfo;

/// A 32-bit address in the code section.
pub fn code_key(obj: &ObjInfo, address: u32) -> u64
    ensures is { result ≡ key (code_number (image_of obj.now)) address }
    ensures low { result < 0x10_0000_0000 }
{
    obj.code().number * 0x1_0000_0000 + u64::from(address)
}

/// The first address past the code section.
pub fn section_end(obj: &ObjInfo) -> u64
    ensures { (cap : rules.Capacity) → result ≡ rules.section_end (image_of obj.now) cap }
{
    let code = obj.code();
    code_key(obj, code.base + code.size)
}
