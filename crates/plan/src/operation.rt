// The operations that records of the four kinds mean.
ghost use Rattle.std.specs.Prelude.{◌≡◌};
ghost use Rattle.plan.specs.Operations.{operation_of};

use crate::text::OperationRecord;

#[derive(Clone, Copy, PartialEq, Eq, Debug)]
pub enum Operation {
    Nop,
    // Set a register to 32 signed bits, given as their pattern.
    Set { register: u8, value: u32 },
    // Lower RSP by so many bytes.
    Reserve(u32),
    // Call a function by its number.
    Call(u8),
}

// No TryFrom, since each record gets an operation: a kind above 3 counts as 3. The check accepts no such record, and compiling
// begins with it.
impl From<OperationRecord> for Operation {
    ghost from_gives = { λ r o. o ≡ operation_of r };

    fn from(r: OperationRecord) -> Operation {
        match r.kind {
            0 => Operation::Nop,
            1 => Operation::Set {
                register: r.first,
                value: r.number.cast_unsigned(),
            },
            2 => Operation::Reserve(r.number.cast_unsigned()),
            _ => Operation::Call(r.first),
        }
    }
}
