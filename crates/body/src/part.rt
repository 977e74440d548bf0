// The instructions that steps give: the prologue, the loads of saves and the pops.
ghost use Rattle.std.specs.Iterator.{AlwaysYields, IsFinite};
ghost use Rattle.std.specs.Prelude.{◌≡◌, ◌*◌, ◌≤◌, List, map, length};
ghost use Rattle.layout.specs.Cursors.{HasRoom, wrote};
ghost use Rattle.x64.specs.declared.instruction.Instruction.{Instruction};
ghost use Rattle.plan.specs.Steps.{step_of};
ghost use Rattle.plan.specs.Bodies.{bytes, forward, backward, enter, loading, popping};
ghost use Rattle.std.specs.Option.{option_to_list};

use layout::cursor::Cursor;
use plan::step::Step;
use plan::text::StepRecord;
use steps::set_frame::SetFrameStep;
use x64::encode::{emit, encoded_length};
use x64::instruction::Instruction;

// A save is loaded from its slot, by the frame register where there is one.
fn load(frame: Option<SetFrameStep>, step: &StepRecord) -> Option<Instruction>
    ensures { option_to_list result ≡ loading frame (step_of step.now) }
{
    match (Step::from(*step), frame) {
        (Step::Save(k), None) => Some(Instruction::LoadAtRsp {
            register: k.register,
            displacement: k.offset,
        }),
        (Step::Save(k), Some(f)) => Some(Instruction::LoadAtFrame {
            register: k.register,
            frame: f.register,
            displacement: k.offset.wrapping_sub(u32::from(f.offset)),
        }),
        _ => None,
    }
}

fn pop(step: &StepRecord) -> Option<Instruction>
    ensures { option_to_list result ≡ popping (step_of step.now) }
{
    match Step::from(*step) {
        Step::Push(k) => Some(Instruction::Pop(k.register)),
        _ => None,
    }
}

// How many bytes the instructions of a part have. The bound of ten stands in a `requires` wherever bytes are counted: a caller's
// plan may have more steps until it is checked, so no type of steps says it.
fn part_size<I: Iterator<Item = Instruction> + Drop>(part: I) -> usize
    requires can { I.can_next part }
    requires ends { IsFinite (I.remaining part) }
    requires few { (is : List Instruction) × AlwaysYields I.next_gives (λ i. i) part is × (length is ≤ 10) }
    ensures size { (is : List Instruction) → AlwaysYields I.next_gives (λ i. i) part is → result ≡ length (bytes is) }
    ensures bound { result ≤ 80 }
{
    part.map(encoded_length).sum()
}

// Writes the instructions of a part.
fn write_part<I: Iterator<Item = Instruction> + Drop>(part: I, out: &mut Cursor)
    requires can { I.can_next part }
    requires ends { IsFinite (I.remaining part) }
    requires room { (is : List Instruction) × AlwaysYields I.next_gives (λ i. i) part is × HasRoom out.old (bytes is) }
    ensures { (is : List Instruction) → AlwaysYields I.next_gives (λ i. i) part is → out.new ≡ wrote out.old (bytes is) }
{
    for i in part {
        emit(out, i);
    }
}

// How many bytes the prologue has.
pub fn prologue_size(steps: &[StepRecord]) -> usize
    requires { length steps.now ≤ 10 }
    ensures size { result ≡ length (bytes (enter (map step_of steps.now))) }
    ensures bound { result ≤ 8 * length steps.now }
{
    part_size(steps.iter().map(|s| Step::from(*s).instruction()))
}

// Writes the prologue.
pub(crate) fn write_prologue(steps: &[StepRecord], out: &mut Cursor)
    requires { HasRoom out.old (bytes (enter (map step_of steps.now))) }
    ensures { out.new ≡ wrote out.old (bytes (enter (map step_of steps.now))) }
{
    write_part(steps.iter().map(|s| Step::from(*s).instruction()), out);
}

// How many bytes the loads of the saves have.
pub fn loads_size(frame: Option<SetFrameStep>, steps: &[StepRecord]) -> usize
    requires { length steps.now ≤ 10 }
    ensures size { result ≡ length (bytes (forward (loading frame) (map step_of steps.now))) }
    ensures bound { result ≤ 8 * length steps.now }
{
    part_size(steps.iter().filter_map(|s| load(frame, s)))
}

// Writes the loads of the saves, of the last one first.
pub(crate) fn write_loads(frame: Option<SetFrameStep>, steps: &[StepRecord], out: &mut Cursor)
    requires { HasRoom out.old (bytes (backward (loading frame) (map step_of steps.now))) }
    ensures { out.new ≡ wrote out.old (bytes (backward (loading frame) (map step_of steps.now))) }
{
    write_part(steps.iter().rev().filter_map(|s| load(frame, s)), out);
}

// How many bytes the pops have.
pub fn pops_size(steps: &[StepRecord]) -> usize
    requires { length steps.now ≤ 10 }
    ensures size { result ≡ length (bytes (forward popping (map step_of steps.now))) }
    ensures bound { result ≤ 8 * length steps.now }
{
    part_size(steps.iter().filter_map(pop))
}

// Writes the pops, of the last push first.
pub(crate) fn write_pops(steps: &[StepRecord], out: &mut Cursor)
    requires { HasRoom out.old (bytes (backward popping (map step_of steps.now))) }
    ensures { out.new ≡ wrote out.old (bytes (backward popping (map step_of steps.now))) }
{
    write_part(steps.iter().rev().filter_map(pop), out);
}
