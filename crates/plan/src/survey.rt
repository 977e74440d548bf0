// What the steps of a function have and lay out together.
ghost use Rattle.std.specs.Prelude.{◌≡◌, ◌≤◌, Bool, map, length};
ghost use Rattle.std.specs.List.{list_any};
ghost use Rattle.plan.specs.declared.step.Step.{Step};
ghost use Rattle.plan.specs.Steps.{step_of, keeps, pushes, frames, sets_frame, saves_at, other_than_push, pushed, block, frame};

use crate::step::Step;
use crate::text::StepRecord;
use steps::set_frame::SetFrameStep;

// Whether one of the steps passes a test.
fn any_step<F: Fn(Step) -> bool>(steps: &[StepRecord], test: F) -> bool
    requires { F.IsAlwaysCallable test }
    ensures { (p : Step → Bool) → ((s : Step) (b : Bool) → F.post test s b → b ≡ p s) → result ≡ list_any p (map step_of steps.now) }
{
    steps.iter().any(|r| test(Step::from(*r)))
}

// Whether one of the steps pushes or saves the register.
pub(crate) fn is_kept(steps: &[StepRecord], register: u8) -> bool
    ensures { result ≡ list_any (keeps register) (map step_of steps.now) }
{
    any_step(steps, |s| match s {
        Step::Push(k) => k.register == register,
        Step::Save(k) => k.register == register,
        _ => false,
    })
}

pub(crate) fn is_pushed(steps: &[StepRecord], register: u8) -> bool
    ensures { result ≡ list_any (pushes register) (map step_of steps.now) }
{
    any_step(
        steps,
        |s| matches!(s, Step::Push(k) if k.register == register),
    )
}

pub(crate) fn has_other_than_push(steps: &[StepRecord]) -> bool
    ensures { result ≡ list_any other_than_push (map step_of steps.now) }
{
    any_step(steps, |s| !matches!(s, Step::Push(_)))
}

// Whether one of the steps makes the register the frame register.
pub(crate) fn is_frame(steps: &[StepRecord], register: u8) -> bool
    ensures { result ≡ list_any (frames register) (map step_of steps.now) }
{
    any_step(
        steps,
        |s| matches!(s, Step::SetFrame(k) if k.register == register),
    )
}

pub(crate) fn has_frame(steps: &[StepRecord]) -> bool
    ensures { result ≡ list_any sets_frame (map step_of steps.now) }
{
    any_step(steps, |s| matches!(s, Step::SetFrame(_)))
}

// Whether one of the steps saves at the offset.
pub(crate) fn is_slot_used(steps: &[StepRecord], offset: u32) -> bool
    ensures { result ≡ list_any (saves_at offset) (map step_of steps.now) }
{
    any_step(steps, |s| matches!(s, Step::Save(k) if k.offset == offset))
}

// How many registers the steps push.
#[tactic(auto, using(crate::proofs::Surveys::pushed_counted))]
pub(crate) fn pushes(steps: &[StepRecord]) -> usize
    ensures count { result ≡ pushed (map step_of steps.now) }
    ensures bound { result ≤ length steps.now }
{
    steps
        .iter()
        .copied()
        .map(Step::from)
        .filter(|s| matches!(s, Step::Push(_)))
        .count()
}

// The size of the block that the steps allocate, 0 where they allocate none: the rules give the block that size.
pub fn block_size(steps: &[StepRecord]) -> u32
    ensures { result ≡ block (map step_of steps.now) }
{
    steps
        .iter()
        .find_map(|r| match Step::from(*r) {
            Step::Allocate(k) => Some(k.size),
            _ => None,
        })
        .unwrap_or(0)
}

// The frame register that the steps set, with its offset.
pub fn frame_register(steps: &[StepRecord]) -> Option<SetFrameStep>
    ensures { result ≡ frame (map step_of steps.now) }
{
    steps.iter().find_map(|r| match Step::from(*r) {
        Step::SetFrame(k) => Some(k),
        _ => None,
    })
}
