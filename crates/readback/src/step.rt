// The steps of one info.
ghost use Rattle.std.specs.Prelude.{◌≡◌, ◌-◌, ◌^◌, ◌<◌, ◌≤◌, true, ◌++◌, length, take, drop, is_ok, IfOk};
ghost use Rattle.infos.specs.Infos.{viewed};
ghost use Rattle.readback.specs.Refusals.{told};
ghost use Rattle.readback.specs.Readings.{step_of_code, codes_in, steps_in, counted_in, found};

use crate::refusal::ReadRefusal;
use infos::code::{Code, Operation};
use infos::info::Info;
use plan::text::StepRecord;

// The step that a code of an info stands for; a save of an XMM register is none.
fn step_of(info: &Info<'_>, code: Code) -> Result<StepRecord, ReadRefusal>
    requires { code.slot < 2 ^ 16 }
    ensures { told result ≡ step_of_code info.now.frame_register info.now.frame_offset code }
{
    // The kinds are numbers, as a caller's records have them.
    match code.operation {
        Operation::Push(register) => Ok(StepRecord {
            kind: 0,
            register,
            number: 0,
        }),
        Operation::Allocate(number) => Ok(StepRecord {
            kind: 1,
            register: 0,
            number,
        }),
        Operation::SetFrame => Ok(StepRecord {
            kind: 2,
            register: info.frame_register,
            number: u32::from(info.frame_offset),
        }),
        Operation::Save { register, offset } => Ok(StepRecord {
            kind: 3,
            register,
            number: offset,
        }),
        Operation::SaveXmm { .. } => Err(ReadRefusal::SavesXmm(code.slot as u16)),
    }
}

// How many steps an info whose codes are good has: each code is one. By a loop, which `?` ends at the first that is refused.
pub(crate) fn count_steps(info: &Info<'_>) -> Result<usize, ReadRefusal>
    requires { (length info.now.slots.now ≤ 510) × (is_ok (codes_in (viewed info.now)) ≡ true) }
    ensures value { told result ≡ counted_in (steps_in (viewed info.now)) }
    ensures bound { IfOk result (λ n. n ≤ 255) }
{
    let mut n = 0;
    for code in info.codes() {
        step_of(info, code?)?;
        n += 1;
    }
    Ok(n)
}

// Writes the steps of an info that has some, the last code's first, over the records that end at `end`: a place beside the
// records goes on from function to function, since a Cursor is over bytes, and the clauses speak of the whole list.
pub(crate) fn write_steps(info: &Info<'_>, records: &mut [StepRecord], end: usize)
    requires readable { (length info.now.slots.now ≤ 510) × (is_ok (steps_in (viewed info.now)) ≡ true) }
    requires room { (length (found (steps_in (viewed info.now))) ≤ end) × (end ≤ length records.old) }
    ensures { records.new ≡ take (end - length (found (steps_in (viewed info.now)))) records.old ++ (found (steps_in (viewed info.now)) ++ drop end records.old) }
{
    // After `iter_mut().rev().zip(..)` a proof knows nothing of the records.
    for (at, code) in (0..end).rev().zip(info.codes()) {
        let step = step_of(info, code.unwrap()).unwrap();
        records[at] = step;
    }
}
