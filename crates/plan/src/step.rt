// The steps that records of the four kinds mean.
ghost use Rattle.std.specs.Prelude.{◌≡◌};
ghost use Rattle.layout.specs.Cursors.{HasRoom, wrote};
ghost use Rattle.plan.specs.Steps.{step_of, step_instruction, step_code, Sound};

use crate::text::StepRecord;
use layout::cursor::Cursor;
use steps::allocate::AllocateStep;
use steps::kind::StepKind;
use steps::push::PushStep;
use steps::save::SaveStep;
use steps::set_frame::SetFrameStep;
use x64::instruction::Instruction;

#[derive(Clone, Copy, PartialEq, Eq, Debug)]
pub enum Step {
    Push(PushStep),
    Allocate(AllocateStep),
    SetFrame(SetFrameStep),
    Save(SaveStep),
}

// No TryFrom, since each record gets a step: a kind above 3 counts as 3, and a frame offset above 255 as 255. The check accepts
// no such record, and compiling begins with it.
impl From<StepRecord> for Step {
    ghost from_gives = { λ r s. s ≡ step_of r };

    fn from(r: StepRecord) -> Step {
        match r.kind {
            0 => Step::Push(PushStep {
                register: r.register,
            }),
            1 => Step::Allocate(AllocateStep { size: r.number }),
            2 => Step::SetFrame(SetFrameStep {
                register: r.register,
                offset: r.number.min(255) as u8,
            }),
            _ => Step::Save(SaveStep {
                register: r.register,
                offset: r.number,
            }),
        }
    }
}

// By matches: the enum passes on to its kinds, and a trait object would have to be made for each step and handed out.
impl Step {
    pub fn instruction(&self) -> Instruction
        ensures { result ≡ step_instruction self.now }
    {
        match self {
            Step::Push(k) => k.instruction(),
            Step::Allocate(k) => k.instruction(),
            Step::SetFrame(k) => k.instruction(),
            Step::Save(k) => k.instruction(),
        }
    }

    // Writes the unwind code for an instruction that ends at the prologue offset `end`.
    pub fn write_code(&self, end: u8, out: &mut Cursor)
        requires sound { Sound self.now }
        requires room { HasRoom out.old (step_code end self.now) }
        ensures { out.new ≡ wrote out.old (step_code end self.now) }
    {
        match self {
            Step::Push(k) => k.write_code(end, out),
            Step::Allocate(k) => k.write_code(end, out),
            Step::SetFrame(k) => k.write_code(end, out),
            Step::Save(k) => k.write_code(end, out),
        }
    }
}
