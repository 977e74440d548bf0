// Why a description is refused.
ghost use Rattle.std.specs.Prelude.{◌≡◌};
ghost use Rattle.plan.specs.Refusals.{reason_number, plan_number, plan_fault, fault};

use layout::refusal::Numbered;

#[derive(Clone, Copy, PartialEq, Eq, Debug)]
pub enum PlanReason {
    // 10: not 1 to 64 functions.
    FunctionCount = 10,
    // 11: over 10 steps or 255 operations in a function, or counts that do not match the lists.
    Counts,
    // 12: an unknown kind, a register that cannot be pushed or saved, or a field in use that should not be.
    StepKind,
    // 13: a register pushed or saved twice.
    Repeated,
    // 14: steps out of order, or a frame register that is 12 or not pushed.
    Order,
    // 15: a size or an offset that is not allowed.
    Number,
    // 16: a function that calls with a misaligned stack or a block under 32 bytes.
    Alignment,
    // 17: an operation that breaks a rule.
    Operation,
    // 18: a buffer that is too short.
    Buffer,
}

// A reason, with the index of what is refused: of the step for 12 to 15, of the operation for 17, of the function for 16 and
// for a count over its limit; the number of functions for counts that do not match the lists, where no single one is meant; 0
// for 10; and for 18 the buffer, 0, 1 or 2 for code, infos or table. A number for each, and no enum: the rules give these
// numbers, and reports print them.
#[derive(Clone, Copy, PartialEq, Eq, Debug)]
pub struct PlanRefusal {
    pub reason: PlanReason,
    pub index: usize,
}

impl Numbered for PlanReason {
    ghost number = { reason_number };

    fn number(&self) -> u16 {
        *self as u16
    }
}

impl Numbered for PlanRefusal {
    ghost number = { plan_number };

    fn number(&self) -> u16 {
        self.reason.number()
    }
}

impl PlanReason {
    pub(crate) fn at(self, index: usize) -> PlanRefusal
        ensures { plan_fault result ≡ fault (reason_number self) index }
    {
        PlanRefusal {
            reason: self,
            index,
        }
    }
}
