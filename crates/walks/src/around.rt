// What stays as it is during a walk.
ghost use Rattle.std.specs.Prelude.{◌≡◌, unwrap_or};
ghost use Rattle.obj_info.specs.Info.{some_nonzero};

use obj_info::ObjInfo;
use tables::Map;

/// How many functions may be known.
pub const FUNCTIONS: usize = 1024;

/// The known functions: entry and end, 0 while it is not known.
pub type KnownFunctions = Map<FUNCTIONS>;

/// The image, the function's start and, if it is known, its end, and the known functions.
#[derive(Clone, Copy)]
pub struct Around<'a> {
    pub obj: ObjInfo<'a>,
    pub start: u64,
    pub end: Option<u64>,
    pub known: &'a KnownFunctions,
    /// 0 is no end.
    pub ghost end_is_address: { end ≡ some_nonzero (unwrap_or end 0) },
}
