// Writing a whole module: code, infos and table.
ghost use Rattle.std.specs.Prelude.{◌≡◌, ◌≤◌, replicate};
ghost use Rattle.layout.specs.Cursors.{HasRoom, wrote};
ghost use Rattle.layout.specs.Words.{overwritten};
ghost use Rattle.plan.specs.Functions.{text_of, functions_of};
ghost use Rattle.plan.specs.Layouts.{entry, code as code_of, infos as infos_of, table as table_of};
ghost use Rattle.compile.specs.Writables.{Writable};

use crate::info::write_info;
use crate::layout_of::{FIRST_RVA, up16};
use body::function::write_function;
use layout::cursor::Cursor;
use layout::word::Word;
use plan::text::Plan;

// What stands between functions.
const GAP: [u8; 16] = [0xcc; 16];

// Writes a gap of `size` bytes.
fn write_gap(size: usize, out: &mut Cursor)
    requires { (size ≤ 16) × HasRoom out.old (replicate size 204) }
    ensures { out.new ≡ wrote out.old (replicate size 204) }
{
    out.put(&GAP[..size]);
}

// Writes an entry of the function table.
#[tactic(auto, using(crate::proofs::Filling::entry_written))]
fn write_entry(begin: u32, end: u32, info: u32, out: &mut Cursor)
    requires { HasRoom out.old (entry begin end info) }
    ensures { out.new ≡ wrote out.old (entry begin end info) }
{
    out.put(&begin.le_bytes());
    out.put(&end.le_bytes());
    out.put(&info.le_bytes());
}

// Writes the functions of an accepted plan one by one, each with its info and its entry, over slices that are long enough.
fn write_functions(
    plan: &Plan,
    starts: &[u32],
    rva: usize,
    code: &mut Cursor,
    infos: &mut Cursor,
    table: &mut Cursor,
)
    requires writable { Writable (text_of plan.now) starts.now rva code.old.out.now infos.old.out.now table.old.out.now }
    requires start { (code.old.at ≡ 0) × (infos.old.at ≡ 0) × (table.old.at ≡ 0) }
    ensures code { code.new ≡ wrote code.old (code_of (functions_of (text_of plan.now))) }
    ensures infos { infos.new ≡ wrote infos.old (infos_of (functions_of (text_of plan.now))) }
    ensures table { table.new ≡ wrote table.old (table_of (functions_of (text_of plan.now))) }
{
    for f in plan.functions() {
        let last = FIRST_RVA + code.at;
        let begin = up16(last);
        write_gap(begin - last, code);
        write_function(f, starts, begin as u32, code);
        let end = FIRST_RVA + code.at;
        let info = rva + infos.at;
        write_entry(begin as u32, end as u32, info as u32, table);
        write_info(f.steps, infos);
    }
}

// Writes the code, infos and table of an accepted plan over the buffers' first bytes, which are enough. Three parameters, as the
// caller of `compile` lends them one by one.
pub(crate) fn write_module(
    plan: &Plan,
    starts: &[u32],
    rva: usize,
    code: &mut [u8],
    infos: &mut [u8],
    table: &mut [u8],
)
    requires { Writable (text_of plan.now) starts.now rva code.old infos.old table.old }
    ensures code { code.new ≡ overwritten code.old 0 (code_of (functions_of (text_of plan.now))) }
    ensures infos { infos.new ≡ overwritten infos.old 0 (infos_of (functions_of (text_of plan.now))) }
    ensures table { table.new ≡ overwritten table.old 0 (table_of (functions_of (text_of plan.now))) }
{
    let mut code = Cursor::new(code);
    let mut infos = Cursor::new(infos);
    let mut table = Cursor::new(table);
    write_functions(plan, starts, rva, &mut code, &mut infos, &mut table);
}
