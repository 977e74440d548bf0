// What every kind of step gives: its instruction and so its effect and bytes, its undoing, its unwind code, and the law
// between effect and undoing.
ghost use Rattle.std.specs.Prelude.{◌≡◌, ℕ, Bool, true, false, ◌||◌, List, is_ok, if◌then◌else◌};
ghost use Rattle.layout.specs.Cursors.{HasRoom, wrote};
ghost use Rattle.x64.specs.Encodings.{encode};
ghost use Rattle.x64.specs.declared.instruction.Instruction.{Instruction};
ghost use Rattle.cpu.specs.Processors.{State, state, state_of, in_state};
ghost use Rattle.steps.specs.States.{after, allowed, GivesBack, Later};

use cpu::processor::{Area, OutsideStack, Processor};
use layout::cursor::Cursor;
use layout::registers::Registers;
use x64::encode::{emit, encoded_length};
use x64::instruction::Instruction;

pub trait StepKind: Sized {
    // The steps that there are.
    ghost sound: { Self → Type 0 };

    // The states in which the step is not refused and no sum wraps.
    ghost fits: { Self → State → Type 0 };

    ghost instruction: { Self → Instruction };

    // Whether the undoing reads only the area and no sum wraps, and what it leaves.
    ghost undoable: { Self → State → Bool };

    ghost undo: { Self → State → State };

    // The preserved registers that the undoing does not give back, that the step saved, and that the undoing reads.
    ghost own: { Self → ℕ → Bool };

    ghost saved: { Self → ℕ → Bool };

    ghost reads: { Self → ℕ → Bool };

    // The bytes of its unwind code, for an instruction that ends at this offset.
    ghost code: { Self → ℕ → List ℕ };

    fn instruction(&self) -> Instruction
        ensures { result ≡ instruction self.now };

    // Undoes the step over registers and a stack area, or refuses and changes nothing.
    fn undo(&self, registers: &mut Registers, area: Area<'_>) -> Result<(), OutsideStack>
        ensures answer { is_ok result ≡ undoable self.now (state registers.old area.entry) }
        ensures registers { registers.new ≡ (if is_ok result then (undo self.now (state registers.old area.entry)).registers else registers.old) };

    // Writes the unwind code, for which there is room.
    fn write_code(&self, end: u8, out: &mut Cursor)
        requires sound { sound self.now }
        requires room { HasRoom out.old (code self.now end) }
        ensures { out.new ≡ wrote out.old (code self.now end) };

    // Writes the instruction, for which there is room.
    fn write(&self, out: &mut Cursor)
        requires { HasRoom out.old (encode (instruction self.now)) }
        ensures { out.new ≡ wrote out.old (encode (instruction self.now)) }
    {
        emit(out, self.instruction())
    }

    // The effect: carries the instruction out, or refuses and changes nothing.
    fn apply(&self, machine: &mut Processor) -> Result<(), OutsideStack>
        ensures answer { is_ok result ≡ allowed (instruction self.now) (state_of machine.old) }
        ensures after { machine.new ≡ (if is_ok result then in_state machine.old (after (instruction self.now) (state_of machine.old)) else machine.old) }
    {
        let i = self.instruction();
        machine.execute(i, encoded_length(i) as u64)
    }

    // Whatever happened to the saved registers and to any others since, undoing gives back RSP and the preserved registers.
    ghost restores: { (k : Self) (s t : State) (lost : ℕ → Bool) → sound k → fits k s → ((r : ℕ) → reads k r ≡ true → lost r ≡ false) → Later (λ r. saved k r || lost r) (after (instruction k) s) t → GivesBack (λ r. own k r || lost r) s (undo k t) };

    // Undoing right after the effect gives back RSP and every preserved register but a set-frame's own.
    ghost undone: { (k : Self) (s : State) → sound k → fits k s → GivesBack (own k) s (undo k (after (instruction k) s)) };
}
