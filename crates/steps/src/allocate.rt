// Allocate a block.
ghost use Rattle.std.specs.Prelude.{◌≡◌, ◌%◌, ◌≤◌, true, false};
ghost use Rattle.std.proofs.Common.{◌∙◌, arith};
ghost use Rattle.x64.specs.declared.instruction.Instruction.TheVariants.{SubRsp};
ghost use Rattle.steps.specs.Kinds.{undo_allocate, can_undo_allocate, allocate_code};
ghost use Rattle.steps.specs.States.{rsp, allowed, Sixteen, after};
ghost use Rattle.steps.specs.Laws.{allocate_restores, at_once};
ghost use Rattle.std.proofs.lemmas.List.{length-set};

use crate::kind::StepKind;
use cpu::processor::{Area, OutsideStack};
use layout::cursor::Cursor;
use layout::registers::{RSP, Registers};
use x64::instruction::Instruction;

#[derive(Clone, Copy, PartialEq, Eq, Debug)]
pub struct AllocateStep {
    pub size: u32,
}

impl StepKind for AllocateStep {
    ghost sound = { λ k. (8 ≤ k.size) × (k.size ≤ 2097152) × (k.size % 8 ≡ 0) };

    ghost fits = { λ k s. Sixteen s × (k.size ≤ rsp s) × (allowed (SubRsp k.size) s ≡ true) };

    ghost instruction = { λ k. SubRsp k.size };

    ghost undoable = { λ k s. can_undo_allocate k.size s };

    ghost undo = { λ k s. undo_allocate k.size s };

    ghost own = { λ k r. false };

    ghost saved = { λ k r. false };

    ghost reads = { λ k r. false };

    ghost code = { λ k end. allocate_code k.size end };

    ghost restores = { λ k s t lost so fi re later. allocate_restores k.size s (omega (arith, so.1)) fi.0 fi.1 t lost later };

    ghost undone = { λ k s so fi.
        allocate_restores k.size s (omega (arith, so.1)) fi.0 fi.1 (after (SubRsp k.size) s) (λ _. false)
        (at_once _ (after (SubRsp k.size) s) (length-set s.registers.integer 4 _ ∙ fi.0.0)) };

    fn instruction(&self) -> Instruction {
        Instruction::SubRsp(self.size)
    }

    fn undo(&self, registers: &mut Registers, area: Area<'_>) -> Result<(), OutsideStack> {
        let above = registers.integer[RSP]
            .checked_add(u64::from(self.size))
            .ok_or(OutsideStack)?;
        registers.integer[RSP] = above;
        Ok(())
    }

    fn write_code(&self, end: u8, out: &mut Cursor) {
        let words = self.size / 8;
        if self.size <= 128 {
            return out.put(&[end, 16 * (words as u8 - 1) + 2]);
        }
        if self.size <= 524280 {
            let [w0, w1] = (words as u16).to_le_bytes();
            return out.put(&[end, 1, w0, w1]);
        }
        let [b0, b1, b2, b3] = self.size.to_le_bytes();
        out.put(&[end, 17, b0, b1, b2, b3])
    }
}
