// Reading a module's steps back.
ghost use Rattle.std.specs.Prelude.{◌≡◌, ◌+◌, ◌≤◌, true, ◌++◌, map, length, take, drop, is_ok, IfOk};
ghost use Rattle.readback.specs.Laws.{CompiledBack};
ghost use Rattle.readback.specs.Refusals.{told};
ghost use Rattle.readback.specs.Readings.{function_steps_in, read_steps_in, joint, joint_count, counted_in, found, counts_of, module_view, reading, functions_after, steps_after};

use crate::refusal::ReadRefusal;
use crate::step::{count_steps, write_steps};
use infos::reading::read_info;
use plan::text::{Counts, StepRecord};
use tables::area::InfoArea;
use tables::entry::Entry;
use tables::module::Module;

// How many functions and steps were read.
#[derive(Clone, Copy, PartialEq, Eq, Debug)]
pub struct Lengths {
    pub functions: usize,
    pub steps: usize,
}

// How many steps an entry's function has.
fn check_function(area: InfoArea<'_>, entry: Entry) -> Result<usize, ReadRefusal>
    ensures value { told result ≡ counted_in (function_steps_in area.entry entry) }
    ensures bound { IfOk result (λ n. n ≤ 255) }
{
    let info = read_info(area, entry.info)?;
    if info.flags != 0 {
        return Err(ReadRefusal::Flags);
    }
    count_steps(&info)
}

// How many steps the functions of all entries have. By a loop, which `?` ends at the first that is refused.
fn check_functions(area: InfoArea<'_>, entries: &[Entry]) -> Result<usize, ReadRefusal>
    requires { length entries.now ≤ 65536 }
    ensures { told result ≡ joint_count (read_steps_in area.entry entries.now) }
{
    let mut steps = 0;
    for entry in entries {
        steps += check_function(area, *entry)?;
    }
    Ok(steps)
}

// Writes the steps of an entry's function from `at` on, and answers how many there are. The place stands beside the records and
// goes on from function to function: a Cursor is over bytes, and the clauses speak of the whole list.
fn write_function(area: InfoArea<'_>, entry: Entry, records: &mut [StepRecord], at: usize) -> usize
    requires { (is_ok (function_steps_in area entry) ≡ true) × (at + length (found (function_steps_in area entry)) ≤ length records.old) }
    ensures after { records.new ≡ take at records.old ++ (found (function_steps_in area.entry entry) ++ drop (at + length (found (function_steps_in area.entry entry))) records.old) }
    ensures count { result ≡ length (found (function_steps_in area.entry entry)) }
    ensures bound { result ≤ 255 }
{
    let info = read_info(area, entry.info).unwrap();
    let n = count_steps(&info).unwrap();
    write_steps(&info, records, at + n);
    n
}

// Writes the counts and the steps of all functions.
fn write_functions(
    area: InfoArea<'_>,
    entries: &[Entry],
    functions: &mut [Counts],
    steps: &mut [StepRecord],
)
    requires { (is_ok (read_steps_in area entries.now) ≡ true) × ((length entries.now ≤ length functions.old) × (length (joint (found (read_steps_in area entries.now))) ≤ length steps.old)) }
    ensures functions { functions.new ≡ map counts_of (found (read_steps_in area.entry entries.now)) ++ drop (length entries.now) functions.old }
    ensures steps { steps.new ≡ joint (found (read_steps_in area.entry entries.now)) ++ drop (length (joint (found (read_steps_in area.entry entries.now)))) steps.old }
{
    let mut at = 0;
    // After `iter_mut().zip(..)` a proof knows nothing of the counts, so one of the two lists goes by an index.
    for (k, entry) in entries.iter().enumerate() {
        let n = write_function(area, *entry, steps, at);
        functions[k] = Counts {
            steps: n as u16,
            operations: 0,
        };
        at += n;
    }
}

// Fills the caller's records with each function's count of steps and, one function after another, the steps in prologue
// order. A refusal, with 22 last, changes no record; the records past those written stay.
pub fn read_back(
    module: &Module<'_>,
    functions: &mut [Counts],
    steps: &mut [StepRecord],
) -> Result<Lengths, ReadRefusal>
    ensures answer { told result ≡ reading (module_view «module».now) (length functions.old) (length steps.old) }
    ensures functions { functions.new ≡ functions_after (module_view «module».now) functions.old result }
    ensures steps { steps.new ≡ steps_after (module_view «module».now) steps.old result }
    ensures compiled { CompiledBack (module_view «module».now) functions.old steps.old result functions.new steps.new }
{
    module.check()?;
    let count = check_functions(module.area, module.entries)?;
    if module.entries.len() > functions.len() || count > steps.len() {
        return Err(ReadRefusal::TooFewRecords);
    }
    write_functions(module.area, module.entries, functions, steps);
    Ok(Lengths {
        functions: module.entries.len(),
        steps: count,
    })
}
