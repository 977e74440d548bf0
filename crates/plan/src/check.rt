// Which descriptions are accepted.
ghost use Rattle.std.specs.Prelude.{◌≡◌, ◌+◌, ◌^◌, ◌<◌, ◌≤◌, ◌&&◌, [], map, length, ◌==◌};
ghost use Rattle.plan.specs.Functions.{text_of, function_of, functions_of};
ghost use Rattle.plan.specs.Refusals.{reason_number, told};
ghost use Rattle.plan.specs.Steps.{step_of};
ghost use Rattle.plan.specs.Verdicts.{owed, within, calls, steps_verdict, operations_verdict, function_verdict, functions_verdict, steps_counted, operations_counted, counts_verdict, plan_verdict};

use crate::refusal::{PlanReason, PlanRefusal};
use crate::rules::{check_step, is_aligned, is_operation};
use crate::text::{Counts, Function, OperationRecord, Plan, StepRecord};

// A module has at most this many functions, a function at most this many steps and operations.
pub const MAX_FUNCTIONS: usize = 64;

pub const MAX_STEPS: u16 = 10;

pub const MAX_OPERATIONS: u16 = 255;

// Refuses what is not good.
pub fn owe(good: bool, reason: PlanReason, index: usize) -> Result<(), PlanRefusal>
    ensures { told result ≡ owed good (reason_number reason) index }
{
    good.then_some(()).ok_or(reason.at(index))
}

fn is_within(c: Counts) -> bool
    ensures { result ≡ within c }
{
    c.steps <= MAX_STEPS && c.operations <= MAX_OPERATIONS
}

// Whether the lists have as many steps and operations as are counted.
#[tactic(auto, using(crate::proofs::Passes::steps_summed, crate::proofs::Passes::operations_summed))]
fn are_all_counted(plan: &Plan<'_>) -> bool
    requires { length plan.now.functions.now ≤ 64 }
    ensures { result ≡ (steps_counted plan.now.functions.now == length plan.now.steps.now && operations_counted plan.now.functions.now == length plan.now.operations.now) }
{
    let steps: usize = plan.functions.iter().map(|c| usize::from(c.steps)).sum();
    let operations: usize = plan
        .functions
        .iter()
        .map(|c| usize::from(c.operations))
        .sum();
    steps == plan.steps.len() && operations == plan.operations.len()
}

// 11: a count over its limit, or counts that do not match the lists.
fn check_counts(plan: &Plan<'_>) -> Result<(), PlanRefusal>
    requires { length plan.now.functions.now ≤ 64 }
    ensures { told result ≡ counts_verdict plan.now.functions.now (length plan.now.steps.now) (length plan.now.operations.now) }
{
    let counts = plan.functions;
    if let Some(k) = counts.iter().position(|c| !is_within(*c)) {
        return Err(PlanReason::Counts.at(k));
    }
    owe(are_all_counted(plan), PlanReason::Counts, counts.len())
}

// Whether an operation calls, which is kind 3, see OperationRecord.
fn has_call(operations: &[OperationRecord]) -> bool
    ensures { result ≡ calls operations.now }
{
    operations.iter().any(|o| o.kind == 3)
}

// 12 to 15 for each step; `index` is that of the first.
fn check_steps(calls: bool, index: usize, steps: &[StepRecord]) -> Result<(), PlanRefusal>
    requires { index + length steps.now < 2 ^ 64 }
    ensures { told result ≡ steps_verdict calls index [] steps.now }
{
    for (i, r) in steps.iter().enumerate() {
        check_step(calls, &steps[..i], *r).map_err(|reason| reason.at(index + i))?;
    }
    Ok(())
}

// 17 for each operation; `index` is that of the first.
fn check_operations(
    functions: usize,
    steps: &[StepRecord],
    index: usize,
    operations: &[OperationRecord],
) -> Result<(), PlanRefusal>
    requires { index + length operations.now < 2 ^ 64 }
    ensures { told result ≡ operations_verdict functions (map step_of steps.now) index operations.now }
{
    if let Some(i) = operations
        .iter()
        .position(|o| !is_operation(functions, steps, *o))
    {
        return Err(PlanReason::Operation.at(index + i));
    }
    Ok(())
}

// 12 to 17 for function `index`; `step` and `operation` are the indexes of its first.
fn check_function(
    functions: usize,
    index: usize,
    step: usize,
    operation: usize,
    f: Function<'_>,
) -> Result<(), PlanRefusal>
    requires steps { step + length f.steps.now < 2 ^ 64 }
    requires operations { operation + length f.operations.now < 2 ^ 64 }
    ensures { told result ≡ function_verdict functions index step operation (function_of f.entry) }
{
    let calls = has_call(f.operations);
    check_steps(calls, step, f.steps)?;
    owe(is_aligned(calls, f.steps), PlanReason::Alignment, index)?;
    check_operations(functions, f.steps, operation, f.operations)
}

// 12 to 17 for each function. The index of a function's first step, or operation, is how many those before it have: it is carried
// along here, and an iterator that gave it would carry it the same way.
fn check_functions(plan: &Plan<'_>) -> Result<(), PlanRefusal>
    ensures { told result ≡ functions_verdict (length plan.now.functions.now) 0 0 0 (functions_of (text_of plan.now)) }
{
    let mut step = 0;
    let mut operation = 0;
    for (k, f) in plan.functions().enumerate() {
        check_function(plan.functions.len(), k, step, operation, f)?;
        step += f.steps.len();
        operation += f.operations.len();
    }
    Ok(())
}

impl Plan<'_> {
    // The first refusal of 10 to 17, in the order of the rules.
    pub fn check(&self) -> Result<(), PlanRefusal>
        ensures { told result ≡ plan_verdict (text_of self.now) }
    {
        let n = self.functions.len();
        owe(1 <= n && n <= MAX_FUNCTIONS, PlanReason::FunctionCount, 0)?;
        check_counts(self)?;
        check_functions(self)
    }
}
