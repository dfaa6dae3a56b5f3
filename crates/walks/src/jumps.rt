// Outcomes that go on to the next word or to one address.
ghost use Rattle.std.specs.Prelude.{◌≡◌, ◌<◌, ◌&&◌, ◌||◌, not, eqb, ltb, List};
ghost use Rattle.rules.specs.Choice.{ok};
ghost use Rattle.rules.specs.Address.{address_of, section_of};
ghost use Rattle.rules.specs.Blocks.{last_end};
ghost use Rattle.rules.specs.Known.{Entry};
ghost use Rattle.rules.specs.Image as images;
ghost use Rattle.rules.specs.Step as rules;
ghost use Rattle.faults.specs.Outcome.{outcome};
ghost use Rattle.slices.specs.Some.{or_zero};
ghost use Rattle.slices.specs.View.{slices_of};
ghost use Rattle.obj_info.specs.Info.{image_of, some_nonzero};
ghost use Rattle.walks.specs.Around.{Knows, around_of};
ghost use Rattle.walks.specs.State.{walk_of};

use crate::around::Around;
use crate::functions::nonzero;
use crate::walk::{Place, Walk};
use faults::Fault;
use obj_info::ObjInfo;

// Whether an address lies below an end, if there is one.
fn is_below(addr: u64, end: Option<u64>) -> bool
    ensures { result ≡ ltb addr (or_zero end) }
{
    end.is_some_and(|end| addr < end)
}

/// Whether a prologue or an epilogue was met; 0 is no address.
pub fn is_recorded(at: Option<u64>) -> bool
    ensures { result ≡ not (eqb (or_zero at) 0) }
{
    at.is_some_and(|at| at != 0)
}

// Whether a jump leads to another section, or is none of a nonzero word.
fn leaves(addr: u64, word: u32, target: u64) -> bool
    ensures { result ≡ (not (eqb (section_of target) (section_of addr)) || eqb word 0) }
{
    target / 0x1_0000_0000 != addr / 0x1_0000_0000 || word == 0
}

impl Walk {
    /// Whether the word at an address was visited.
    pub fn is_seen(&self, obj: &ObjInfo, addr: u64) -> bool
        ensures { result ≡ rules.seen (image_of obj.now) addr (walk_of self.now) }
    {
        match obj.index(addr) {
            Some(word) => self.visited.contains(word),
            None => false,
        }
    }

    /// The function at or around an address.
    pub fn known_function(&self, around: &Around, addr: u64) -> Option<u64>
        ensures { (es : List Entry) →
            Knows around.now.known.now es →
            result ≡ some_nonzero (rules.known_function (around_of around.now es) addr (slices_of self.now.slices)) }
    {
        if self.slices.is_function_reference(addr) {
            return nonzero(addr);
        }
        around.covering(addr)
    }

    /// Whether an address belongs to a known function that is not the walked one.
    pub fn is_known_function(&self, around: &Around, addr: u64) -> bool
        ensures { (es : List Entry) →
            Knows around.now.known.now es →
            result ≡ rules.is_known_function (around_of around.now es) (slices_of self.now.slices) addr }
    {
        match self.known_function(around, addr) {
            Some(function) => function != around.start,
            None => false,
        }
    }

    // Whether the word at an address was visited, or a block starts there.
    fn is_met(&self, obj: &ObjInfo, addr: u64) -> bool
        ensures { (e : rules.Around) → e.image ≡ image_of obj.now → result ≡ rules.is_met e addr (walk_of self.now) }
    {
        self.is_seen(obj, addr) || self.slices.has_start(addr)
    }

    /// The block ends before a word that is met; else the walk goes on.
    pub fn do_go_on(&mut self, obj: &ObjInfo, addr: u64, block: u64) -> Result<(), Fault>
        requires { address_of addr < 0xF000_0000 }
        ensures { (e : rules.Around) →
            e.image ≡ image_of obj.now →
            outcome (walk_of self.new) result ≡ rules.do_go_on e addr block (walk_of self.old) }
    {
        let next = addr + 4;
        if self.is_met(obj, next) {
            self.end_block(addr, block)?;
            return self.set_branches(addr, &[next]);
        }
        self.place = Place::At { word: next, block };
        Ok(())
    }

    /// A zero word is no function's; after another one the walk goes on, whatever is there.
    pub fn do_illegal(&mut self, addr: u64, block: u64, word: u32)
        requires { address_of addr < 0xF000_0000 }
        ensures { (e : rules.Around) →
            word ≡ images.word e.image (address_of addr) →
            ok (walk_of self.new) ≡ rules.do_illegal e addr block (walk_of self.old) }
    {
        self.place = if word == 0 {
            Place::Nowhere
        } else {
            Place::At {
                word: addr + 4,
                block,
            }
        };
    }

    // Whether a prologue was met, and no epilogue.
    fn is_between(&self) -> bool
        ensures { result ≡ (not (eqb (slices_of self.now.slices).prologue 0) && eqb (slices_of self.now.slices).epilogue 0) }
    {
        is_recorded(self.slices.prologue) && !is_recorded(self.slices.epilogue)
    }

    /// Between prologue and epilogue an unknown jump goes on to the next word.
    pub fn do_unknown(&mut self, addr: u64) -> Result<(), Fault>
        requires { address_of addr < 0xF000_0000 }
        ensures { (e : rules.Around) → outcome (walk_of self.new) result ≡ rules.do_unknown e addr (walk_of self.old) }
    {
        if !self.is_between() {
            return Ok(());
        }
        let next = addr + 4;
        self.set_branches(addr, &[next])?;
        self.mark_and_push(next)
    }

    // Whether an address lies below the function's end or the last block's, as far as these are known.
    fn is_below_end(&self, around: &Around, target: u64) -> bool
        ensures { (es : List Entry) →
            result ≡ (ltb target (around_of around.now es).end || ltb target (last_end (slices_of self.now.slices).blocks)) }
    {
        is_below(target, around.end) || is_below(target, self.slices.last_end())
    }

    // Whether the target of the jump at `addr` lies inside the function, as far as that is known.
    fn jumps_inside(&self, around: &Around, addr: u64, target: u64) -> bool
        ensures { (es : List Entry) →
            result ≡ rules.jumps_inside (around_of around.now es) addr target (slices_of self.now.slices) }
    {
        around.start <= target && (self.is_below_end(around, target) || target < addr)
    }

    // A block of the function starts at the target; the walk goes on there, unless it was visited.
    fn jump_inside(&mut self, obj: &ObjInfo, target: u64) -> Result<(), Fault>
        ensures { (e : rules.Around) →
            e.image ≡ image_of obj.now →
            outcome (walk_of self.new) result ≡ rules.jump_inside e target (walk_of self.old) }
    {
        if self.slices.add_block_start(target)? && !self.is_seen(obj, target) {
            self.place = Place::At {
                word: target,
                block: target,
            };
        }
        Ok(())
    }

    // The target is a known function's, or one is referred to, or it may be a block of this one.
    fn jump_outside(
        &mut self,
        around: &Around,
        addr: u64,
        word: u32,
        target: u64,
    ) -> Result<(), Fault>
        ensures { (es : List Entry) →
            Knows around.now.known.now es →
            word ≡ images.word (image_of around.now.obj) (address_of addr) →
            outcome (walk_of self.new) result ≡ rules.on_slices
            (rules.jump_outside (around_of around.now es) addr target) (walk_of self.old) }
    {
        match self.known_function(around, target) {
            Some(function) if function == around.start => Err(Fault::JumpToItself),
            Some(function) => self.slices.add_function_reference(function),
            None if leaves(addr, word, target) => self.slices.add_function_reference(target),
            None => self.slices.add_possible_block(target),
        }
    }

    /// A jump; one to its own word ends the walk of it.
    pub fn do_jump(
        &mut self,
        around: &Around,
        addr: u64,
        word: u32,
        target: u64,
    ) -> Result<(), Fault>
        ensures { (es : List Entry) →
            Knows around.now.known.now es →
            word ≡ images.word (image_of around.now.obj) (address_of addr) →
            outcome (walk_of self.new) result ≡ rules.do_jump (around_of around.now es) addr target (walk_of self.old) }
    {
        self.set_branches(addr, &[target])?;
        if target == addr {
            Ok(())
        } else if self.jumps_inside(around, addr, target) {
            self.jump_inside(&around.obj, target)
        } else {
            self.jump_outside(around, addr, word, target)
        }
    }
}
