// An image that is lent as one list with a header, in place of seven lists: the same answers.
ghost use Rattle.std.specs.Prelude.{◌≡◌};
ghost use Rattle.rules.specs.Check.{check};
ghost use Rattle.rules.specs.Run.{run};
ghost use Rattle.obj_image.specs.Lent.{given};
ghost use Rattle.image.specs.Lists.{lent_of, image_at};
ghost use Rattle.detection.specs.Maps.{room_of, reply, Told, Counted};

// image::check: 1, 2 or 3 by the first check that fails; 0 where none does.
#[unsafe(no_mangle)]
pub extern "C" fn woqchari_check_image(image: &[u32], bytes: &[u8]) -> u32
    ensures { result ≡ check (given (lent_of image.now bytes.now)) }
{
    woqchari::one_list::woqchari_check_image(image, bytes)
}

// woqchari_detect_functions of an image that is lent as one list with a header.
#[unsafe(no_mangle)]
pub extern "C" fn woqchari_detect_in_image(
    image: &[u32],
    bytes: &[u8],
    rows: &mut [u64],
    lists: &mut [u64],
    entries: &mut usize,
    numbers: &mut usize,
) -> u32
    ensures told { Told
        (run (given (lent_of image.now bytes.now))
        (room_of rows.old lists.old))
        rows.old lists.old rows.new lists.new
        (reply result entries.new numbers.new) }
    ensures counted { Counted (image_at image.now bytes.now) rows.new lists.new
        (reply result entries.new numbers.new) }
{
    woqchari::one_list::woqchari_detect_in_image(image, bytes, rows, lists, entries, numbers)
}
