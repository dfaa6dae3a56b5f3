// What a trial walk makes of a possible block.

ghost use Rattle.std.specs.Prelude.{◌≡◌};
ghost use Rattle.rules.specs.Step as steps;
ghost use Rattle.rules.specs.TailCall as rules;
ghost use Rattle.faults.specs.Number.{number_of};
ghost use Rattle.slices.specs.View.{slices_of};
ghost use Rattle.passes.specs.Analyzed.{analyzed};
ghost use Rattle.tail_calls.specs.Verdict.{tail_call_of, verdict};

use crate::TailCall;
use faults::Fault;
use slices::FunctionSlices;
use walks::is_recorded;

// A prologue or a load of r1 in the trial: a function.
fn own_word(trial: &FunctionSlices) -> TailCall
    ensures { (e : steps.Around) → tail_call_of result ≡ rules.own_word e (slices_of trial.now) }
{
    if is_recorded(trial.prologue) | trial.has_r1_load {
        return TailCall::Is;
    }
    TailCall::Possible
}

// Another possible block in the trial's blocks, behind its first word: it goes with this one.
fn judge_others(slices: &mut FunctionSlices, trial: &FunctionSlices) -> TailCall
    ensures { (e : steps.Around) →
        rules.verdict (tail_call_of result) (slices_of slices.new) ≡ rules.judge_others e (slices_of slices.old) (slices_of trial.now) }
{
    let first = trial.first_start().unwrap_or(0);
    let end = trial.last_end().unwrap_or(0);
    // Where four more would overflow no address lies from there up to an end.
    let second = first.saturating_add(4);
    if slices.possible_blocks.remove_within(second, end) {
        return TailCall::Not;
    }
    own_word(trial)
}

// A trial that reached back before `addr`: not a tail call.
fn judge_trial(slices: &mut FunctionSlices, trial: &FunctionSlices, addr: u64) -> TailCall
    ensures { (e : steps.Around) →
        rules.verdict (tail_call_of result) (slices_of slices.new) ≡ rules.judge_trial e addr (slices_of slices.old)
        (slices_of trial.now) }
{
    if trial.first_start().unwrap_or(0) < addr {
        return TailCall::Not;
    }
    judge_others(slices, trial)
}

// These faults of the trial end the whole run; at the others nothing is known.
fn ends_run(fault: Fault) -> bool
    ensures { result ≡ rules.ends_run (number_of fault) }
{
    matches!(fault, Fault::Limit | Fault::Misaligned | Fault::Stuck)
}

/// What a trial walk from `addr`, which found a function or none or met a fault, makes of the possible block there.
pub fn judge(
    slices: &mut FunctionSlices,
    trial: &FunctionSlices,
    found: Result<bool, Fault>,
    addr: u64,
) -> Result<TailCall, Fault>
    ensures { (e : steps.Around) →
        verdict (slices_of slices.new) result ≡ rules.judge e addr (slices_of slices.old) (analyzed (slices_of trial.now) found) }
{
    match found {
        Ok(true) => Ok(judge_trial(slices, trial, addr)),
        Ok(false) => Ok(TailCall::Is),
        Err(fault) if ends_run(fault) => Err(fault),
        Err(_) => Ok(TailCall::Possible),
    }
}
