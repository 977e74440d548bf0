// Set the frame register.
ghost use Rattle.std.specs.Prelude.{◌≡◌, ◌+◌, ◌^◌, ◌<◌, ◌≤◌, true, false, ◌==◌, nat_eq, refl};
ghost use Rattle.std.proofs.Common.{◌∙◌, arith};
ghost use Rattle.layout.specs.Registers.{preserved};
ghost use Rattle.x64.specs.declared.instruction.Instruction.TheVariants.{LeaAtRsp};
ghost use Rattle.steps.specs.Kinds.{undo_frame, can_undo_frame, frame_code};
ghost use Rattle.steps.specs.States.{rsp, allowed, Sixteen, after};
ghost use Rattle.std.proofs.lemmas.Bool.{eq-eqb};
ghost use Rattle.steps.specs.Laws.{frame_restores, at_once, but_none};
ghost use Rattle.std.proofs.lemmas.List.{length-set};
ghost use Rattle.cpu.specs.Effects.{moved};

use crate::kind::StepKind;
use cpu::intent::value_of;
use cpu::processor::{Area, OutsideStack};
use layout::cursor::Cursor;
use layout::registers::{RSP, Registers};
use x64::instruction::Instruction;

#[derive(Clone, Copy, PartialEq, Eq, Debug)]
pub struct SetFrameStep {
    pub register: u8,
    pub offset: u8,
}

impl StepKind for SetFrameStep {
    ghost sound = { λ k. (preserved k.register ≡ true) × (k.register < 16) × (k.offset ≤ 240) };

    ghost fits = { λ k s. Sixteen s × (rsp s + k.offset < 2 ^ 64) × (allowed (LeaAtRsp k.register k.offset) s ≡ true) };

    ghost instruction = { λ k. LeaAtRsp k.register k.offset };

    ghost undoable = { λ k s. can_undo_frame k.register k.offset s };

    ghost undo = { λ k s. undo_frame k.register k.offset s };

    ghost own = { λ k r. (r == k.register) };

    ghost saved = { λ k r. false };

    ghost reads = { λ k r. (r == k.register) };

    ghost code = { λ k end. frame_code end };

    ghost restores = { λ k s t lost so fi re later. frame_restores k.register k.offset s so.0 so.1 (omega (arith, so.2)) fi.0 fi.1 t lost (re k.register (eq-eqb k.register k.register refl)) later };

    ghost undone = { λ k s so fi.
        let e = after (LeaAtRsp k.register k.offset) s in
        but_none (λ r. nat_eq r k.register) s (undo_frame k.register k.offset e)
        (frame_restores k.register k.offset s so.0 so.1 (omega (arith, so.2)) fi.0 fi.1 e (λ _. false) refl
        (at_once _ e (length-set _ 4 _ ∙ length-set s.registers.integer k.register (moved (rsp s) k.offset) ∙ fi.0.0))) };

    fn instruction(&self) -> Instruction {
        Instruction::LeaAtRsp {
            register: self.register,
            displacement: u32::from(self.offset),
        }
    }

    fn undo(&self, registers: &mut Registers, area: Area<'_>) -> Result<(), OutsideStack> {
        let frame = value_of(registers, self.register);
        let below = frame
            .checked_sub(u64::from(self.offset))
            .ok_or(OutsideStack)?;
        registers.integer[RSP] = below;
        Ok(())
    }

    fn write_code(&self, end: u8, out: &mut Cursor) {
        out.put(&[end, 3])
    }
}
