// Save a preserved register in the block.
ghost use Rattle.std.specs.Prelude.{◌≡◌, ◌+◌, ◌%◌, ◌^◌, ◌<◌, ◌≤◌, true, false, ◌==◌};
ghost use Rattle.std.proofs.Common.{◌∙◌, arith};
ghost use Rattle.layout.specs.Registers.{preserved};
ghost use Rattle.x64.specs.declared.instruction.Instruction.TheVariants.{StoreAtRsp};
ghost use Rattle.steps.specs.Kinds.{undo_save, can_undo_save, save_code};
ghost use Rattle.steps.specs.States.{rsp, allowed, Sixteen, after};
ghost use Rattle.steps.specs.Laws.{save_restores, at_once};
ghost use Rattle.std.proofs.lemmas.List.{length-set};

use crate::kind::StepKind;
use cpu::processor::{Area, OutsideStack, put};
use layout::cursor::Cursor;
use layout::registers::{RSP, Registers};
use x64::instruction::Instruction;

#[derive(Clone, Copy, PartialEq, Eq, Debug)]
pub struct SaveStep {
    pub register: u8,
    pub offset: u32,
}

impl StepKind for SaveStep {
    ghost sound = { λ k. (preserved k.register ≡ true) × (k.register < 16) × (k.offset ≤ 2097152) × (k.offset % 8 ≡ 0) };

    ghost fits = { λ k s. Sixteen s × (rsp s + k.offset < 2 ^ 64) × (allowed (StoreAtRsp k.register k.offset) s ≡ true) };

    ghost instruction = { λ k. StoreAtRsp k.register k.offset };

    ghost undoable = { λ k s. can_undo_save k.offset s };

    ghost undo = { λ k s. undo_save k.register k.offset s };

    ghost own = { λ k r. false };

    ghost saved = { λ k r. (r == k.register) };

    ghost reads = { λ k r. false };

    ghost code = { λ k end. save_code k.register k.offset end };

    ghost restores = { λ k s t lost so fi re later. save_restores k.register k.offset s so.0 so.1 (omega (arith, so.2)) fi.0 fi.1 fi.2 t lost later };

    ghost undone = { λ k s so fi.
        let e = after (StoreAtRsp k.register k.offset) s in
        save_restores k.register k.offset s so.0 so.1 (omega (arith, so.2)) fi.0 fi.1 fi.2 e (λ _. false)
        (at_once _ e (length-set s.registers.integer 4 _ ∙ fi.0.0)) };

    fn instruction(&self) -> Instruction {
        Instruction::StoreAtRsp {
            register: self.register,
            displacement: self.offset,
        }
    }

    fn undo(&self, registers: &mut Registers, area: Area<'_>) -> Result<(), OutsideStack> {
        let at = registers.integer[RSP]
            .checked_add(u64::from(self.offset))
            .ok_or(OutsideStack)?;
        let word = area.word_at(at).ok_or(OutsideStack)?;
        put(registers, self.register, word);
        Ok(())
    }

    fn write_code(&self, end: u8, out: &mut Cursor) {
        if self.offset <= 524280 {
            let [w0, w1] = ((self.offset / 8) as u16).to_le_bytes();
            return out.put(&[end, 16 * self.register + 4, w0, w1]);
        }
        let [b0, b1, b2, b3] = self.offset.to_le_bytes();
        out.put(&[end, 16 * self.register + 5, b0, b1, b2, b3])
    }
}
