// A list of branches.
ghost use Rattle.std.specs.Prelude.{◌≡◌, ◌++◌, ℕ, List};
ghost use Rattle.rules.specs.Known.{Entry};
ghost use Rattle.rules.specs.Step as rules;
ghost use Rattle.faults.specs.Outcome.{outcome};
ghost use Rattle.obj.specs.Outcomes.{branch_list};
ghost use Rattle.slices.specs.View.{slices_of};
ghost use Rattle.obj_info.specs.Info.{image_of, some_nonzero};
ghost use Rattle.walks.specs.Around.{Knows, around_of};
ghost use Rattle.walks.specs.Branched.{branched};
ghost use Rattle.walks.specs.State.{walk_of};

use crate::around::Around;
use crate::functions::nonzero;
use crate::walk::Walk;
use faults::Fault;
use obj_info::{Branch, To};

// The function symbol whose size covers the target, else the target.
fn linked_function(around: &Around, target: u64) -> u64
    ensures { (es : List Entry) → result ≡ rules.linked_function (around_of around.now es) target }
{
    around.obj.symbol_over(target).unwrap_or(target)
}

impl Walk {
    // The function that a branch refers to: another known one, or with link one at the target.
    fn refers_to(&self, around: &Around, link: bool, target: u64) -> Option<u64>
        ensures { (es : List Entry) →
            Knows around.now.known.now es →
            result ≡ some_nonzero (rules.refers_to (around_of around.now es) link target (slices_of self.now.slices)) }
    {
        if self.is_known_function(around, target) {
            return self.known_function(around, target);
        }
        if link {
            return nonzero(linked_function(around, target));
        }
        None
    }

    // A branch to an address: a reference, or a way on.
    fn do_branch(&mut self, around: &Around, link: bool, target: u64) -> Result<Option<u64>, Fault>
        ensures { (es : List Entry) (out : List ℕ) →
            Knows around.now.known.now es →
            branched (walk_of self.new) out result ≡ rules.do_branch (around_of around.now es) link target (walk_of self.old) out }
    {
        match self.refers_to(around, link, target) {
            Some(function) => {
                self.add_function_reference(function)?;
                Ok(None)
            }
            None => {
                self.mark_and_push(target)?;
                Ok(Some(target))
            }
        }
    }

    // A branch of a list, if there is one; where it goes on, if it does.
    fn branch_to(&mut self, around: &Around, branch: Branch) -> Result<Option<u64>, Fault>
        ensures { (es : List Entry) (out : List ℕ) →
            Knows around.now.known.now es →
            branched (walk_of self.new) out result ≡ rules.branch_each (around_of around.now es) (branch_list branch)
            (walk_of self.old) out }
    {
        match branch.to {
            To::Address(a) => {
                let target = around.obj.locate(a).unwrap_or(0);
                self.do_branch(around, branch.link, target)
            }
            To::Table(_) => Err(Fault::TableInBranches),
            To::Elsewhere => Ok(None),
            To::Nowhere => Ok(None),
        }
    }

    /// The branches of a list, one after the other, and the ways on, where there are any.
    pub fn do_branches(
        &mut self,
        around: &Around,
        addr: u64,
        first: Branch,
        second: Branch,
    ) -> Result<(), Fault>
        ensures { (es : List Entry) →
            Knows around.now.known.now es →
            outcome (walk_of self.new) result ≡ rules.do_branches (around_of around.now es) addr
            (branch_list first ++ branch_list second) (walk_of self.old) }
    {
        let one = self.branch_to(around, first)?;
        let two = self.branch_to(around, second)?;
        match (one, two) {
            (Some(one), Some(two)) => self.set_branches(addr, &[one, two]),
            (Some(one), None) => self.set_branches(addr, &[one]),
            (None, Some(two)) => self.set_branches(addr, &[two]),
            (None, None) => Ok(()),
        }
    }
}
