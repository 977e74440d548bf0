// Carrying an epilogue out.
ghost use Rattle.std.specs.Prelude.{◌≡◌, ◌+◌, ◌^◌, ◌≤◌, true, Ok};
ghost use Rattle.std.specs.Result.{result_map_both};
ghost use Rattle.memory.specs.Refusals.{item_fault};
ghost use Rattle.unwind.specs.Carrying.{acted, carried};
ghost use Rattle.unwind.specs.Epilogues.{actions, found, listed};
ghost use Rattle.unwind.specs.declared.epilogue.Part.TheVariants.{First};

use crate::epilogue::{Action, Next, Part};
use crate::undo::{move_rsp, pop, pop_rip};
use layout::address::Address;
use layout::registers::Registers;
use memory::item::ItemFault;
use memory::reading::Memory;

fn act<M: Memory>(m: &mut M, action: Action, registers: Registers) -> Result<Registers, ItemFault>
    ensures answer { result_map_both (λ x. x) item_fault result ≡ acted (M.shows m.old) action registers }
    ensures same { M.shows m.new ≡ M.shows m.old }
{
    match action {
        Action::Move {
            register,
            displacement,
        } => move_rsp(registers, register, displacement),
        Action::Pop(register) => pop(m, registers, register),
    }
}

// Carries out the epilogue at `start`, which was found there. Its bytes are read again, since there is no room to keep what they
// do, of which there is no bound.
pub(crate) fn carry_out<M: Memory>(
    m: &mut M,
    frame: u8,
    start: Address,
    left: u32,
    mut registers: Registers,
) -> Result<Registers, ItemFault>
    requires low { start.0 + left ≤ 2 ^ 64 }
    requires found { found (actions frame First start.0 left (M.shows m.old)) ≡ Ok true }
    ensures answer { result_map_both (λ x. x) item_fault result ≡ carried (M.shows m.old) (listed (actions frame First start.0 left (M.shows m.old))) registers }
    ensures same { M.shows m.new ≡ M.shows m.old }
{
    let mut part = Part::First;
    for i in 0..u64::from(left) {
        let b = m.read(Address(start.0 + i))?;
        match part.next(frame, b) {
            Next::On(p) => part = p,
            Next::Whole(action, p) => {
                registers = act(m, action, registers)?;
                part = p;
            }
            Next::Found | Next::Misfit => break,
        }
    }
    pop_rip(m, registers)
}
