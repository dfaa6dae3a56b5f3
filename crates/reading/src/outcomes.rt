// What the last code word does: its target, its table, its branches.
ghost use Rattle.std.specs.Prelude.{◌≡◌, ◌+◌, ◌≤◌, length, take};
ghost use Rattle.reading.specs.LastRows.{Told, Now, last_is, set_target, set_table, with_branch, add_branch};
ghost use Rattle.reading.specs.LastRows as ends;

// The kinds of outcome that frames may say more of (obj_image has them all).
const JUMP: u32 = 4;

const JUMP_TABLE: u32 = 5;

const BRANCHES: u32 = 6;

// A way of a branch that there is none of.
const NO_WAY: u32 = 4;

// Whether there is a last code word, and its outcome is of this kind.
fn last_is(outcomes: &[u32], count: usize, kind: u32) -> bool
    requires { count ≤ length outcomes.now }
    ensures { result ≡ last_is kind (take count outcomes.now) }
{
    if count < 6 {
        return false;
    }
    outcomes[count - 6] == kind
}

// Where the last code word jumps to; false where it is no jump.
pub fn set_target(outcomes: &mut [u32], count: usize, target: u32) -> bool
    requires { count ≤ length outcomes.old }
    ensures { Told count outcomes.old outcomes.new result
        (set_target target (take count outcomes.old)) }
{
    if last_is(outcomes, count, JUMP) {
        outcomes[count - 4] = target;
        return true;
    }
    false
}

// The last code word's jump table; false where it has none.
pub fn set_table(outcomes: &mut [u32], count: usize, a: u32, size: u32) -> bool
    requires { count ≤ length outcomes.old }
    ensures { Told count outcomes.old outcomes.new result
        (set_table a size (take count outcomes.old)) }
{
    if last_is(outcomes, count, JUMP_TABLE) {
        outcomes[count - 4] = a;
        outcomes[count - 3] = size;
        return true;
    }
    false
}

// One branch more of a row; with a third the row breaks its rule.
fn with_branch(outcomes: &mut [u32], count: usize, way: u32, a: u32)
    requires { (6 ≤ count) × (count ≤ length outcomes.old) }
    ensures { Now count outcomes.old outcomes.new
        (with_branch way a (take count outcomes.old)) }
{
    if outcomes[count - 4] == 0 {
        outcomes[count - 4] = way;
        outcomes[count - 3] = a;
        return;
    }
    if outcomes[count - 2] == 0 {
        outcomes[count - 2] = way;
        outcomes[count - 1] = a;
        return;
    }
    outcomes[count - 2] = NO_WAY;
}

// The next branch of the last code word; false where it has no branches.
pub fn add_branch(outcomes: &mut [u32], count: usize, link: u32, to: u32, a: u32) -> bool
    requires { (count ≤ length outcomes.old) × (link ≤ 1) × (to ≤ 2) }
    ensures { Told count outcomes.old outcomes.new result
        (add_branch link to a (take count outcomes.old)) }
{
    if last_is(outcomes, count, BRANCHES) {
        with_branch(outcomes, count, link * 4 + to + 1, a);
        return true;
    }
    false
}
