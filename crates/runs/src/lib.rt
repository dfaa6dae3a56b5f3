// Runs of elements within a lent slice: moved, copied in, filled, and one run put in the place of another.
#![tactic(auto)]

mod vectors;

ghost use Rattle.std.specs.Prelude.{◌≡◌, ◌++◌, ◌+◌, ◌-◌, ◌<◌, ◌≤◌, length, take, drop, replicate};
ghost use Rattle.std.proofs.Math.Seq.{paste};
ghost use Rattle.runs.specs.Runs.{Fits, spliced};

pub use vectors::{insert, move_within, remove, remove_range};

// `count` elements from src on, up to dst.
fn move_up(xs: &mut [u64], src: usize, dst: usize, count: usize)
    requires { (src ≤ dst) × (dst + count ≤ length xs.old) }
    ensures { xs.new ≡ paste xs.old dst (drop src xs.old) count }
{
    for k in (0..count).rev() {
        xs[dst + k] = xs[src + k];
    }
}

// `count` elements from src on, down to dst.
fn move_down(xs: &mut [u64], src: usize, dst: usize, count: usize)
    requires { (dst ≤ src) × (src + count ≤ length xs.old) }
    ensures { xs.new ≡ paste xs.old dst (drop src xs.old) count }
{
    for k in 0..count {
        xs[dst + k] = xs[src + k];
    }
}

// `count` elements from src on, to dst.
pub fn shift(xs: &mut [u64], src: usize, dst: usize, count: usize)
    requires { (src + count ≤ length xs.old) × (dst + count ≤ length xs.old) }
    ensures { xs.new ≡ paste xs.old dst (drop src xs.old) count }
{
    if src < dst {
        move_up(xs, src, dst, count);
    } else if dst < src {
        move_down(xs, src, dst, count);
    }
}

// The first `count` elements of new, from at on.
pub fn copy_in(xs: &mut [u64], at: usize, new: &[u64], count: usize)
    requires { (count ≤ length new.now) × (at + count ≤ length xs.old) }
    ensures { xs.new ≡ paste xs.old at new.now count }
{
    xs[at..at + count].copy_from_slice(&new[..count]);
}

// `value` `count` times, from at on.
pub fn fill(xs: &mut [u64], at: usize, value: u64, count: usize)
    requires { at + count ≤ length xs.old }
    ensures { xs.new ≡ paste xs.old at (replicate count value) count }
{
    xs[at..at + count].fill(value);
}

// Among the first total elements, makes those from at up to until `len` elements, which are still to be written; the new count.
fn make_room(xs: &mut [u64], total: usize, at: usize, until: usize, len: usize) -> usize
    requires { Fits xs.old total at until len }
    ensures count { result ≡ at + len + (total - until) }
    ensures moved { xs.new ≡ paste xs.old (at + len) (drop until xs.old) (total - until) }
{
    let dst = at + len;
    let rest = total - until;
    shift(xs, until, dst, rest);
    dst + rest
}

// Among the first total elements, the first `len` of new in the place of those from at up to until; the new count.
pub fn splice(
    xs: &mut [u64],
    total: usize,
    at: usize,
    until: usize,
    new: &[u64],
    len: usize,
) -> usize
    requires { Fits xs.old total at until len × (len ≤ length new.now) }
    ensures count { result ≡ at + len + (total - until) }
    ensures whole { xs.new ≡ spliced xs.old total at until (take len new.now) ++ drop result
        xs.old }
{
    let count = make_room(xs, total, at, until, len);
    copy_in(xs, at, new, len);
    count
}

// The same with `value` `len` times.
pub fn splice_fill(
    xs: &mut [u64],
    total: usize,
    at: usize,
    until: usize,
    value: u64,
    len: usize,
) -> usize
    requires { Fits xs.old total at until len }
    ensures count { result ≡ at + len + (total - until) }
    ensures whole { xs.new ≡ spliced xs.old total at until (replicate len value) ++ drop result
        xs.old }
{
    let count = make_room(xs, total, at, until, len);
    fill(xs, at, value, len);
    count
}
