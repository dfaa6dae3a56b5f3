// The pending addresses as a record that is lent, and changed where it lies. It may hold anything: no order is asked of it.
#![tactic(auto)]

ghost use Rattle.std.specs.Prelude.{◌≡◌, ◌+◌, ◌≤◌, ◌<◌, None, OnOk, OnErr, drop};
ghost use Rattle.rules.specs.Choice.{limited};
ghost use Rattle.rules.specs.Step.{insert};
ghost use Rattle.faults.specs.Outcome.{outcome};
ghost use Rattle.worklist.specs.Pending.{first, rest};
ghost use Rattle.records_pending.specs.Record.{list_of, IsBehind};

use faults::Fault;

/// How many addresses may be pending.
pub const MOST: usize = 256;

/// The first `count` addresses are pending, in ascending order, so that the highest is taken off the end.
#[repr(C)]
#[derive(Clone, Copy)]
pub struct Pending {
    pub addresses: [u64; MOST],
    pub count: usize,
}

// Behind the last address that is no higher.
fn place(addresses: &[u64], addr: u64) -> usize
    ensures { IsBehind addresses.now addr result }
{
    match addresses.iter().rposition(|&pending| pending <= addr) {
        Some(last) => last + 1,
        None => 0,
    }
}

/// Puts an address among them, behind the last that is no higher. Where there is no room for it nothing changes.
pub fn push(p: &mut Pending, addr: u64) -> Result<(), Fault>
    ensures outcome { outcome (list_of p.new) result ≡ limited MOST (insert addr (list_of p.old)) }
    ensures count { OnOk result (p.new.count ≡ p.old.count + 1) }
    ensures past { drop p.new.count p.new.addresses ≡ drop p.new.count p.old.addresses }
    ensures full { OnErr result (p.new ≡ p.old) }
{
    if MOST <= p.count {
        return Err(Fault::Limit);
    }
    let at = place(&p.addresses[..p.count], addr);
    p.addresses.copy_within(at..p.count, at + 1);
    p.addresses[at] = addr;
    p.count += 1;
    Ok(())
}

/// Takes the highest. There is none, and nothing changes, where more are told than the array holds.
pub fn pop(p: &mut Pending) -> Option<u64>
    ensures highest { p.old.count ≤ MOST → result ≡ first (list_of p.old) }
    ensures left { p.old.count ≤ MOST → list_of p.new ≡ rest (list_of p.old) }
    ensures past { MOST < p.old.count → (result ≡ None) × (p.new ≡ p.old) }
    ensures same { p.new.addresses ≡ p.old.addresses }
{
    let left = p.count.checked_sub(1)?;
    let highest = *p.addresses.get(left)?;
    p.count = left;
    Some(highest)
}
