//! An image by hand, and what document 01 says comes of its possible blocks. The contract says it by the rules' definitions; what is
//! answered beside the lists no program prints.
use crate::{Current, settle_all};
use obj_info::ObjInfo;
use std::test::Fail;
use walks::{Around, KnownFunctions, Walk};

/// The lowest address of the code section.
const LOW: u64 = 0x1_0000_0000;

#[test]
fn settles_what_can_be(rt: HostRuntime) -> Result<(), Fail> {
    // eight words of code from 1000 on, none of which is 0, and the walk goes on behind each
    let bytes = [0x60; 32];
    let outcomes = [0; 48];
    let obj = ObjInfo::new(&[1, 0x1000, 32, 32], &bytes, &outcomes, &[], &[], &[], &[])?;
    let known = KnownFunctions::new();
    let around = Around {
        obj,
        start: LOW + 0x1010,
        end: None,
        known: &known,
    };
    let mut walk = Walk::new();
    walk.slices
        .add_all_possible_blocks(&[LOW + 0x1004, LOW + 0x1018])?;
    // a jump to before the start is a tail call; of one behind it nothing is known while the function has no end
    let current = settle_all(&mut walk, &around, LOW, false)?;
    assert_eq!(rt; current, Current::Behind(LOW + 0x1018));
    assert_eq!(rt;
        walk.slices.function_references.as_slice(),
        [LOW + 0x1004].as_slice()
    );
    assert_eq!(rt;
        walk.slices.possible_blocks.as_slice(),
        [LOW + 0x1018].as_slice()
    );
    Ok(())
}
