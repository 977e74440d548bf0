// Push a preserved register.
ghost use Rattle.std.specs.Prelude.{◌≡◌, ◌<◌, ◌≤◌, true, false, ◌==◌};
ghost use Rattle.std.proofs.Common.{◌∙◌};
ghost use Rattle.layout.specs.Registers.{preserved};
ghost use Rattle.x64.specs.declared.instruction.Instruction.TheVariants.{Push};
ghost use Rattle.steps.specs.Kinds.{undo_push, can_undo_push, push_code};
ghost use Rattle.steps.specs.States.{rsp, allowed, Sixteen, after};
ghost use Rattle.steps.specs.Laws.{push_restores, at_once};
ghost use Rattle.std.proofs.lemmas.List.{length-set};

use crate::kind::StepKind;
use cpu::processor::{Area, OutsideStack, put};
use layout::cursor::Cursor;
use layout::registers::{RSP, Registers};
use x64::instruction::Instruction;

#[derive(Clone, Copy, PartialEq, Eq, Debug)]
pub struct PushStep {
    pub register: u8,
}

impl StepKind for PushStep {
    ghost sound = { λ k. (preserved k.register ≡ true) × (k.register < 16) };

    ghost fits = { λ k s. Sixteen s × (8 ≤ rsp s) × (allowed (Push k.register) s ≡ true) };

    ghost instruction = { λ k. Push k.register };

    ghost undoable = { λ k s. can_undo_push s };

    ghost undo = { λ k s. undo_push k.register s };

    ghost own = { λ k r. false };

    ghost saved = { λ k r. (r == k.register) };

    ghost reads = { λ k r. false };

    ghost code = { λ k end. push_code k.register end };

    ghost restores = { λ k s t lost so fi re later. push_restores k.register s so.0 so.1 fi.0 fi.1 fi.2 t lost later };

    ghost undone = { λ k s so fi.
        push_restores k.register s so.0 so.1 fi.0 fi.1 fi.2 (after (Push k.register) s) (λ _. false)
        (at_once _ (after (Push k.register) s) (length-set s.registers.integer 4 _ ∙ fi.0.0)) };

    fn instruction(&self) -> Instruction {
        Instruction::Push(self.register)
    }

    fn undo(&self, registers: &mut Registers, area: Area<'_>) -> Result<(), OutsideStack> {
        let rsp = registers.integer[RSP];
        let above = rsp.checked_add(8).ok_or(OutsideStack)?;
        let word = area.word_at(rsp).ok_or(OutsideStack)?;
        put(registers, self.register, word);
        registers.integer[RSP] = above;
        Ok(())
    }

    fn write_code(&self, end: u8, out: &mut Cursor) {
        out.put(&[end, 16 * self.register])
    }
}
