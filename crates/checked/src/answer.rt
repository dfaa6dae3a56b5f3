//! The answer of an image: its number and, where it passes, its tables.
use crate::named::print_tables;
use lines::Image;
use obj_info::ObjInfo;
use std::io::{self, Write};

pub fn answer<W: Write>(out: &mut W, image: &Image) -> io::Result<()> {
    let obj = ObjInfo::new(
        image.sections,
        image.bytes,
        image.outcomes,
        image.functions,
        image.objects,
        image.skips,
        image.entry,
    );
    match obj {
        Ok(obj) => {
            writeln!(out, "0")?;
            print_tables(out, &obj)
        }
        Err(fault) => writeln!(out, "{}", fault.number()),
    }
}
