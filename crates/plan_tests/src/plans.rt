// Small plans for tests.
use compile::compile::compile;
use compile::lengths::Lengths;
use layout::refusal::Numbered;
use plan::refusal::PlanRefusal;
use plan::text::{Counts, OperationRecord, Plan, StepRecord};

pub fn step(kind: u8, register: u8, number: u32) -> StepRecord {
    StepRecord {
        kind,
        register,
        number,
    }
}

pub fn operation(kind: u8, first: u8, number: i32) -> OperationRecord {
    OperationRecord {
        kind,
        first,
        number,
    }
}

// The answer for one function into ample buffers: the refusal's number, or none where the plan is accepted.
pub fn number_of<'a>(steps: &'a [StepRecord], operations: &'a [OperationRecord]) -> Option<u16> {
    let counts = [Counts {
        steps: u16::try_from(steps.len()).unwrap_or(u16::MAX),
        operations: u16::try_from(operations.len()).unwrap_or(u16::MAX),
    }];
    let plan = Plan {
        functions: &counts,
        steps,
        operations,
    };
    let mut code = [0; 4096];
    let mut infos = [0; 128];
    let mut table = [0; 12];
    answer(compile(&plan, &mut code, &mut infos, &mut table))
}

pub fn answer(r: Result<Lengths, PlanRefusal>) -> Option<u16> {
    r.err().map(|e| e.number())
}
