// The unwind info of a function: how many bytes it has, and writing it.
ghost use Rattle.std.specs.Prelude.{◌≡◌, ℕ, ◌<◌, ◌≤◌, map, length};
ghost use Rattle.layout.specs.Cursors.{HasRoom, wrote};
ghost use Rattle.plan.specs.Bodies.{bytes, enter};
ghost use Rattle.plan.specs.Steps.{AllSound, step_of, step_code, frame};
ghost use Rattle.plan.specs.UnwindInfos.{codes, frame_byte, pad, info_bytes};

use body::part::prologue_size;
use layout::cursor::Cursor;
use plan::step::Step;
use plan::survey::frame_register;
use plan::text::StepRecord;
use steps::set_frame::SetFrameStep;
use x64::encode::encoded_length;

// How many bytes a step's code has, by the bounds by which its `write_code` chooses a form: a size is wanted before anything is
// written.
fn code_size(step: Step) -> usize
    ensures size { (end : ℕ) → result ≡ length (step_code end step) }
    ensures bound { result ≤ 6 }
{
    match step {
        Step::Push(_) => 2,
        Step::Allocate(k) => {
            if k.size <= 128 {
                2
            } else if k.size <= 524280 {
                4
            } else {
                6
            }
        }
        Step::SetFrame(_) => 2,
        Step::Save(k) => { if k.offset <= 524280 { 4 } else { 6 } }
    }
}

// How many bytes the codes of steps have.
fn codes_size(steps: &[StepRecord]) -> usize
    requires { length steps.now ≤ 10 }
    ensures size { result ≡ length (codes 0 (map step_of steps.now)) }
    ensures bound { result ≤ 60 }
{
    steps.iter().map(|s| code_size(Step::from(*s))).sum()
}

fn pad_size(size: usize) -> usize
    ensures size { result ≡ length (pad size) }
    ensures bound { result ≤ 2 }
{
    if size % 4 == 0 { 0 } else { 2 }
}

// How many bytes the info of a function with these steps has.
pub(crate) fn info_size(steps: &[StepRecord]) -> usize
    requires { length steps.now ≤ 10 }
    ensures size { result ≡ length (info_bytes (map step_of steps.now)) }
    ensures bound { result ≤ 66 }
{
    let size = codes_size(steps);
    4 + size + pad_size(size)
}

fn frame_of(frame: Option<SetFrameStep>) -> u8
    requires { frame_byte frame < 256 }
    ensures { result ≡ frame_byte frame }
{
    frame.map_or(0, |f| f.register + f.offset / 16 * 16)
}

// Writes the codes of steps, last to first.
fn write_codes(steps: &[StepRecord], prologue: usize, out: &mut Cursor)
    requires sound { AllSound (map step_of steps.now) }
    requires prologue { (prologue ≡ length (bytes (enter (map step_of steps.now)))) × (prologue < 256) }
    requires room { HasRoom out.old (codes 0 (map step_of steps.now)) }
    ensures { out.new ≡ wrote out.old (codes 0 (map step_of steps.now)) }
{
    let mut end = prologue;
    for s in steps.iter().rev() {
        let step = Step::from(*s);
        step.write_code(end as u8, out);
        end -= encoded_length(step.instruction());
    }
}

fn write_pad(size: usize, out: &mut Cursor)
    requires { HasRoom out.old (pad size) }
    ensures { out.new ≡ wrote out.old (pad size) }
{
    if size % 4 != 0 {
        out.put(&[0, 0]);
    }
}

// Writes the info of a function with these steps.
pub(crate) fn write_info(steps: &[StepRecord], out: &mut Cursor)
    requires sound { AllSound (map step_of steps.now) }
    requires few { length steps.now ≤ 10 }
    requires room { HasRoom out.old (info_bytes (map step_of steps.now)) }
    ensures { out.new ≡ wrote out.old (info_bytes (map step_of steps.now)) }
{
    let prologue = prologue_size(steps);
    let size = codes_size(steps);
    let frame = frame_of(frame_register(steps));
    out.put(&[1, prologue as u8, (size / 2) as u8, frame]);
    write_codes(steps, prologue, out);
    write_pad(size, out);
}
