// The compiler.
ghost use Rattle.std.specs.Prelude.{◌≡◌, length, is_ok, if◌then◌else◌};
ghost use Rattle.layout.specs.Words.{overwritten};
ghost use Rattle.plan.specs.Functions.{text_of, functions_of};
ghost use Rattle.plan.specs.Layouts.{code as code_of, infos as infos_of, table as table_of};
ghost use Rattle.plan.specs.Refusals.{told};
ghost use Rattle.compile.specs.Compilings.{room_verdict, compiling};

use crate::layout_of::{info_start, measure};
use crate::lengths::Lengths;
use crate::writing::write_module;
use plan::check::owe;
use plan::refusal::{PlanReason, PlanRefusal};
use plan::text::Plan;

// 18 for the first buffer that is too short.
fn check_room(need: Lengths, room: Lengths) -> Result<(), PlanRefusal>
    ensures { told result ≡ room_verdict need room.code room.infos room.table }
{
    owe(need.code <= room.code, PlanReason::Buffer, 0)?;
    owe(need.infos <= room.infos, PlanReason::Buffer, 1)?;
    owe(need.table <= room.table, PlanReason::Buffer, 2)
}

// Compiles a plan into the first bytes of three buffers, and answers how many bytes each got; the rest of the buffers stays.
// A refusal, 10 to 17 as the plan's check gives them and 18 last, changes no buffer.
pub fn compile(
    plan: &Plan,
    code: &mut [u8],
    infos: &mut [u8],
    table: &mut [u8],
) -> Result<Lengths, PlanRefusal>
    ensures answer { told result ≡ compiling (text_of plan.now) (length code.old) (length infos.old) (length table.old) }
    ensures code { code.new ≡ (if is_ok result then overwritten code.old 0 (code_of (functions_of (text_of plan.now))) else code.old) }
    ensures infos { infos.new ≡ (if is_ok result then overwritten infos.old 0 (infos_of (functions_of (text_of plan.now))) else infos.old) }
    ensures table { table.new ≡ (if is_ok result then overwritten table.old 0 (table_of (functions_of (text_of plan.now))) else table.old) }
{
    plan.check()?;
    let count = plan.functions.len();
    let layout = measure(plan);
    let lengths = Lengths {
        code: layout.code,
        infos: layout.infos,
        table: 12 * count,
    };
    let room = Lengths {
        code: code.len(),
        infos: infos.len(),
        table: table.len(),
    };
    check_room(lengths, room)?;
    let rva = info_start(layout.code);
    write_module(plan, &layout.starts[..count], rva, code, infos, table);
    Ok(lengths)
}
