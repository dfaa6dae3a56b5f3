// Elements put into a vector of fixed capacity, and taken out of it. Those behind are moved by a function that is not inlined: of a move by
// a constant distance the compiler makes a call of C's `memmove`, which nobody had to bring who links the library.

ghost use Rattle.std.specs.Prelude.{◌≡◌, ◌+◌, ◌-◌, ◌<◌, ◌≤◌, List, [], ◌∷◌, ◌++◌, length};
ghost use Rattle.std.specs.List.{copy_within, insert, remove, remove_range};
ghost use Rattle.arrayvec.specs.ArrayVec.{array_vec_len};

use arrayvec::ArrayVec;

/// Elements from one place up to another, copied to where they begin at a third; where they begin there already, nothing is done.
#[inline(never)]
pub fn move_within<T: Copy>(items: &mut [T], from: usize, until: usize, to: usize)
    requires order { from ≤ until }
    requires inside { until ≤ length items.old }
    requires room { to + (until - from) ≤ length items.old }
    ensures { items.new ≡ copy_within items.old from until to }
{
    if from != to {
        items.copy_within(from..until, to);
    }
}

// The last element gives way to one at a place, from which on the others move up.
fn put_at<T: Copy>(items: &mut [T], at: usize, item: T)
    requires { at < length items.old }
    ensures { (front : List T) (last : T) → items.old ≡ front ++ last ∷ [] → items.new ≡ insert front at item }
{
    let end = items.len() - 1;
    move_within(items, at, end, at + 1);
    items[at] = item;
}

/// Puts an element in at a place. Those from there on move up.
pub fn insert<T: Copy + Drop, const N: usize>(items: &mut ArrayVec<T, N>, at: usize, item: T)
    requires in_bounds { at ≤ array_vec_len items.old }
    requires room { array_vec_len items.old < N }
    ensures items { items.new.items ≡ insert items.old.items at item }
{
    if at == items.len() {
        items.push(item);
        return;
    }
    items.push(item);
    put_at(items.as_mut_slice(), at, item);
}

/// Takes the element at a place out. Those behind it move down.
pub fn remove<T: Copy + Default + Drop, const N: usize>(items: &mut ArrayVec<T, N>, at: usize)
    requires { at < array_vec_len items.old }
    ensures items { items.new.items ≡ remove items.old.items at }
{
    let end = items.len();
    move_within(items.as_mut_slice(), at + 1, end, at);
    items.truncate(end - 1);
}

/// Takes the elements from one place up to another out. Those behind them move down.
pub fn remove_range<T: Copy + Default + Drop, const N: usize>(
    items: &mut ArrayVec<T, N>,
    from: usize,
    until: usize,
)
    requires order { from ≤ until }
    requires inside { until ≤ array_vec_len items.old }
    ensures items { items.new.items ≡ remove_range items.old.items from until }
{
    let end = items.len();
    move_within(items.as_mut_slice(), until, end, from);
    items.truncate(end - (until - from));
}
