// The instructions of a function's operations.
ghost use Rattle.std.specs.Prelude.{◌≡◌, ◌+◌, ◌^◌, ◌<◌, ◌≤◌, [], map, length, slice_index};
ghost use Rattle.layout.specs.Cursors.{HasRoom, wrote};
ghost use Rattle.plan.specs.Bodies.{bytes, operation_instruction, work};
ghost use Rattle.plan.specs.Operations.{operation_of};

use layout::cursor::Cursor;
use plan::operation::Operation;
use plan::text::OperationRecord;
use x64::encode::{emit, encoded_length};
use x64::instruction::Instruction;

// Where a function starts, 0 where there is none, as the definition has it: sizes are counted with no starts at all, and in
// what is written it does not come up, since a plan is checked before.
fn start_of(starts: &[u32], function: u8) -> u32
    ensures { result ≡ slice_index starts.now function }
{
    starts.get(usize::from(function)).copied().unwrap_or(0)
}

// The instruction of an operation at an RVA, in a module whose functions start at `starts`. (The two go together, but each
// call has an RVA of its own: a struct of both would be made anew for each.)
fn instruction_of(operation: Operation, starts: &[u32], rva: u32) -> Instruction
    requires { rva + 5 < 2 ^ 32 }
    ensures { result ≡ operation_instruction starts.now rva operation }
{
    match operation {
        Operation::Nop => Instruction::Nop,
        Operation::Set { register, value } => Instruction::Set { register, value },
        Operation::Reserve(size) => Instruction::SubRsp(size),
        Operation::Call(f) => Instruction::Call(start_of(starts, f).wrapping_sub(rva + 5)),
    }
}

// How many bytes the operations have, wherever they stand.
pub(crate) fn operations_size(operations: &[OperationRecord]) -> usize
    requires { length operations.now ≤ 255 }
    ensures size { result ≡ length (bytes (work [] 0 (map operation_of operations.now))) }
    ensures bound { result ≤ 2300 }
{
    operations
        .iter()
        .map(|o| encoded_length(instruction_of(Operation::from(*o), &[], 0)))
        .sum()
}

// Writes the operations, from an RVA on. By a loop: each instruction is made from the place at which it will stand, and in a
// chain the closure would carry that place, with a bound on it owed at each of its calls.
pub(crate) fn write_operations(
    operations: &[OperationRecord],
    starts: &[u32],
    rva: u32,
    out: &mut Cursor,
)
    requires room { HasRoom out.old (bytes (work starts.now rva (map operation_of operations.now))) }
    requires low { rva + length (bytes (work starts.now rva (map operation_of operations.now))) + 5 < 2 ^ 32 }
    ensures { out.new ≡ wrote out.old (bytes (work starts.now rva (map operation_of operations.now))) }
{
    let mut place = rva;
    for o in operations {
        let i = instruction_of(Operation::from(*o), starts, place);
        place += encoded_length(i) as u32;
        emit(out, i);
    }
}
