// One word: prologue and epilogue, then what it does (FunctionSlices::instruction_callback).
ghost use Rattle.std.specs.Prelude.{◌≡◌, ◌<◌, List, true};
ghost use Rattle.rules.specs.Address.{address_of};
ghost use Rattle.rules.specs.Known.{Entry};
ghost use Rattle.rules.specs.Image as images;
ghost use Rattle.rules.specs.Step as rules;
ghost use Rattle.faults.specs.Outcome.{outcome as told};
ghost use Rattle.obj.specs.Outcomes.{outcome_for};
ghost use Rattle.obj_info.specs.Info.{image_of};
ghost use Rattle.walks.specs.After.{after_block};
ghost use Rattle.walks.specs.Around.{Knows, around_of};
ghost use Rattle.walks.specs.State.{walk_of};

use crate::around::Around;
use crate::code::word_in;
use crate::sequences::note;
use crate::walk::{Place, Walk};
use faults::Fault;
use obj_info::Outcome;

impl Walk {
    // What is left of an outcome after its block has ended.
    fn after_block(
        &mut self,
        around: &Around,
        addr: u64,
        word: u32,
        outcome: Outcome,
    ) -> Result<(), Fault>
        requires { address_of addr < 0xF000_0000 }
        ensures { (es : List Entry) →
            Knows around.now.known.now es →
            word ≡ images.word (image_of around.now.obj) (address_of addr) →
            told (walk_of self.new) result ≡ after_block (around_of around.now es) addr (outcome_for outcome) (walk_of self.old) }
    {
        match outcome {
            Outcome::Unknown => self.do_unknown(addr),
            Outcome::Jump(a) => {
                let target = around.obj.locate(a).unwrap_or(0);
                self.do_jump(around, addr, word, target)
            }
            Outcome::JumpTable(a, size) => {
                let target = around.obj.locate(a).unwrap_or(0);
                self.do_table(around, addr, target, size)
            }
            Outcome::Branches(first, second) => self.do_branches(around, addr, first, second),
            Outcome::GoOn => Ok(()),
            Outcome::Illegal => Ok(()),
            Outcome::Return => Ok(()),
        }
    }

    // What the word at `addr` does. Each outcome but going on and an illegal word ends the block.
    fn do_outcome(
        &mut self,
        around: &Around,
        addr: u64,
        block: u64,
        word: u32,
        outcome: Outcome,
    ) -> Result<(), Fault>
        requires { address_of addr < 0xF000_0000 }
        ensures { (es : List Entry) →
            Knows around.now.known.now es →
            word ≡ images.word (image_of around.now.obj) (address_of addr) →
            told (walk_of self.new) result ≡ rules.do_outcome (around_of around.now es) addr block (outcome_for outcome)
            (walk_of self.old) }
    {
        match outcome {
            Outcome::GoOn => self.do_go_on(&around.obj, addr, block),
            Outcome::Illegal => {
                self.do_illegal(addr, block, word);
                Ok(())
            }
            _ => {
                self.end_block(addr, block)?;
                self.after_block(around, addr, word, outcome)
            }
        }
    }

    // A word of another known function ends the walk; else it does what it does.
    fn do_word(
        &mut self,
        around: &Around,
        addr: u64,
        block: u64,
        word: u32,
        outcome: Outcome,
    ) -> Result<(), Fault>
        requires { address_of addr < 0xF000_0000 }
        ensures { (es : List Entry) →
            Knows around.now.known.now es →
            word ≡ images.word (image_of around.now.obj) (address_of addr) →
            outcome_for outcome ≡ (images.told_at (image_of around.now.obj) addr).outcome →
            told (walk_of self.new) result ≡ rules.do_word (around_of around.now es) addr block (walk_of self.old) }
    {
        if self.is_known_function(around, addr) {
            self.place = Place::Nowhere;
            return Ok(());
        }
        self.do_outcome(around, addr, block, word, outcome)
    }

    /// The word at `addr`, in the block that starts at `block`. It lies in the code section, whatever section its key names.
    pub fn instruction_callback(
        &mut self,
        around: &Around,
        addr: u64,
        block: u64,
    ) -> Result<(), Fault>
        requires { images.contains (images.code_section (image_of around.now.obj)) (address_of addr) ≡ true }
        ensures { (es : List Entry) →
            Knows around.now.known.now es →
            told (walk_of self.new) result ≡ rules.instruction_callback (around_of around.now es) addr block (walk_of self.old) }
    {
        let word = word_in(&around.obj, addr);
        let told = around.obj.told_at(addr);
        note(&mut self.slices, &around.obj, addr, word, told.mark)?;
        self.do_word(around, addr, block, word, told.outcome)
    }
}
