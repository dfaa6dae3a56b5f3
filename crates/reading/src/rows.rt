// Rows put at the end of a list that stands in the first numbers of a lent one.
ghost use Rattle.std.specs.Prelude.{◌≤◌, length};
ghost use Rattle.reading.specs.Rows.{Added};

// How many numbers a list has, and whether there was room.
#[derive(Clone, Copy)]
pub struct Count {
    pub ok: bool,
    pub count: usize,
}

// A row more. A list that is longer than its limit stays as it is; where there is no room, nothing is put.
pub fn add_row(xs: &mut [u32], count: usize, limit: usize, row: &[u32]) -> Count
    requires { count ≤ length xs.old }
    ensures { Added limit count row.now xs.old xs.new result }
{
    if limit < count {
        return Count { ok: true, count };
    }
    if xs.len() - count < row.len() {
        return Count { ok: false, count };
    }
    let end = count + row.len();
    xs[count..end].copy_from_slice(row);
    Count {
        ok: true,
        count: end,
    }
}
