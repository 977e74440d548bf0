// The worked function.
ghost use Rattle.std.specs.Prelude.{◌≡◌, length, is_ok, if◌then◌else◌, Ok};
ghost use Rattle.layout.specs.Words.{overwritten};
ghost use Rattle.plan.specs.Refusals.{told};
ghost use Rattle.plan.specs.Verdicts.{plan_verdict};
ghost use Rattle.compile.specs.Compilings.{compiling};
ghost use Rattle.worked.specs.Examples.{worked, worked_code, worked_info, worked_entry, WorkedExamples};

use compile::compile::compile;
use compile::lengths::Lengths;
use plan::refusal::PlanRefusal;
use plan::text::{Counts, OperationRecord, Plan, StepRecord};

// push RBP, push RBX, allocate 56, set RBP as frame register at 32, save RSI at 40.
const STEPS: [StepRecord; 5] = [
    StepRecord {
        kind: 0,
        register: 5,
        number: 0,
    },
    StepRecord {
        kind: 0,
        register: 3,
        number: 0,
    },
    StepRecord {
        kind: 1,
        register: 0,
        number: 56,
    },
    StepRecord {
        kind: 2,
        register: 5,
        number: 32,
    },
    StepRecord {
        kind: 3,
        register: 6,
        number: 40,
    },
];

// Compiles the worked function into the first bytes of three buffers.
pub fn compile_worked(
    code: &mut [u8],
    infos: &mut [u8],
    table: &mut [u8],
) -> Result<Lengths, PlanRefusal>
    ensures answer { told result ≡ compiling worked (length code.old) (length infos.old) (length table.old) }
    ensures code { code.new ≡ (if is_ok result then overwritten code.old 0 worked_code else code.old) }
    ensures info { infos.new ≡ (if is_ok result then overwritten infos.old 0 worked_info else infos.old) }
    ensures entry { table.new ≡ (if is_ok result then overwritten table.old 0 worked_entry else table.old) }
    ensures accepted { plan_verdict worked ≡ Ok tt }
    ensures examples { WorkedExamples }
{
    let functions = [Counts {
        steps: 5,
        operations: 1,
    }];
    let operations = [OperationRecord {
        kind: 0,
        first: 0,
        number: 0,
    }];
    let plan = Plan {
        functions: &functions,
        steps: &STEPS,
        operations: &operations,
    };
    compile(&plan, code, infos, table)
}
