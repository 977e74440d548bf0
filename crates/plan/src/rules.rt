// The rules for one step, by the steps before it, and for one operation. Whether the function calls and the steps before go
// together here, but a struct of both would be made anew for each step.
ghost use Rattle.std.specs.Prelude.{◌≡◌, map};
ghost use Rattle.plan.specs.Refusals.{told_reason};
ghost use Rattle.plan.specs.Rules.{known, repeated, in_order, slot_fits, number_fits, step_verdict, aligned, settable, operation_good};
ghost use Rattle.plan.specs.Steps.{step_of};

use crate::refusal::PlanReason;
use crate::step::Step;
use crate::survey::{
    block_size, has_frame, has_other_than_push, is_frame, is_kept, is_pushed, is_slot_used, pushes,
};
use crate::text::{OperationRecord, StepRecord};
use layout::registers::{is_preserved, is_volatile};
use steps::push::PushStep;
use steps::save::SaveStep;

// By the numbers of the kinds, see StepRecord.
fn is_known(r: StepRecord) -> bool
    ensures { result ≡ known r }
{
    match r.kind {
        0 => is_preserved(r.register) && r.number == 0,
        1 => r.register == 0,
        2 => true,
        3 => is_preserved(r.register),
        _ => false,
    }
}

fn is_repeated(before: &[StepRecord], step: Step) -> bool
    ensures { result ≡ repeated (map step_of before.now) step }
{
    match step {
        Step::Push(PushStep { register }) | Step::Save(SaveStep { register, .. }) => {
            is_kept(before, register)
        }
        Step::Allocate(_) | Step::SetFrame(_) => false,
    }
}

fn is_in_order(before: &[StepRecord], step: Step) -> bool
    ensures { result ≡ in_order (map step_of before.now) step }
{
    match step {
        Step::Push(_) | Step::Allocate(_) => !has_other_than_push(before),
        Step::SetFrame(k) => !has_frame(before)
            && k.register != 12
            && is_pushed(before, k.register),
        Step::Save(_) => true,
    }
}

// Whether a save has a slot of its own in the block.
fn has_slot(calls: bool, before: &[StepRecord], offset: u32) -> bool
    ensures { result ≡ slot_fits calls (map step_of before.now) offset }
{
    let block = block_size(before);
    offset % 8 == 0
        && block >= 8
        && offset <= block - 8
        && !is_slot_used(before, offset)
        && (!calls || offset >= 32)
}

fn number_fits(calls: bool, before: &[StepRecord], step: Step) -> bool
    ensures { result ≡ number_fits calls (map step_of before.now) step }
{
    match step {
        Step::Push(_) => true,
        Step::Allocate(k) => 8 <= k.size && k.size <= 2_097_152 && k.size % 8 == 0,
        Step::SetFrame(k) => k.offset <= 240 && k.offset % 16 == 0,
        Step::Save(k) => has_slot(calls, before, k.offset),
    }
}

// 12, 13, 14 and 15 in this order, for a step after those before it.
pub(crate) fn check_step(
    calls: bool,
    before: &[StepRecord],
    r: StepRecord,
) -> Result<(), PlanReason>
    ensures { told_reason result ≡ step_verdict calls (map step_of before.now) r }
{
    if !is_known(r) {
        return Err(PlanReason::StepKind);
    }
    let step = Step::from(r);
    if is_repeated(before, step) {
        return Err(PlanReason::Repeated);
    }
    if !is_in_order(before, step) {
        return Err(PlanReason::Order);
    }
    if !number_fits(calls, before, step) {
        return Err(PlanReason::Number);
    }
    Ok(())
}

// Whether the stack is aligned for calls, and the block has room for a callee's home words; in 128 bits no sum overflows.
pub(crate) fn is_aligned(calls: bool, steps: &[StepRecord]) -> bool
    ensures { result ≡ aligned calls (map step_of steps.now) }
{
    let block = block_size(steps);
    !calls || (8 * pushes(steps) as u128 + u128::from(block)) % 16 == 8 && block >= 32
}

fn is_settable(steps: &[StepRecord], register: u8) -> bool
    ensures { result ≡ settable (map step_of steps.now) register }
{
    (is_volatile(register) || is_kept(steps, register)) && !is_frame(steps, register)
}

// Whether an operation of a function with these steps, in a module of so many functions, keeps the rules; by the numbers of
// the kinds, see OperationRecord.
pub(crate) fn is_operation(functions: usize, steps: &[StepRecord], r: OperationRecord) -> bool
    ensures { result ≡ operation_good functions (map step_of steps.now) r }
{
    let number = r.number.cast_unsigned();
    match r.kind {
        0 => r.first == 0 && number == 0,
        1 => is_settable(steps, r.first),
        2 => r.first == 0
            && 16 <= number
            && number <= 65520
            && number % 16 == 0
            && has_frame(steps),
        3 => usize::from(r.first) < functions && number == 0,
        _ => false,
    }
}
