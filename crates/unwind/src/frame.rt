// One frame undone.
ghost use Rattle.std.specs.Prelude.{◌≡◌};
ghost use Rattle.std.specs.Result.{result_map_both};
ghost use Rattle.infos.specs.Infos.{viewed};
ghost use Rattle.unwind.specs.Bases.{base};
ghost use Rattle.unwind.specs.Chains.{undo_fault, after_links, codes_in, ReadWhole};
ghost use Rattle.unwind.specs.Frames.{undone_by};

use crate::base::base_of;
use crate::chain::{Cause, UndoFault, codes_after, saves_of, undo_chain};
use infos::info::Info;
use layout::registers::Registers;
use memory::reading::Memory;
use tables::area::InfoArea;

// The base, or its fault.
fn base_after(info: &Info<'_>, offset: u32, registers: &Registers) -> Result<u64, UndoFault>
    requires { ReadWhole info.now }
    ensures { result_map_both (λ x. x) undo_fault result ≡ after_links 0 (base (viewed info.now) (codes_in (viewed info.now)) offset registers.now) }
{
    base_of(info, offset, registers).map_err(|e| UndoFault {
        cause: Cause::Unread(e),
        slot: None,
        links: 0,
    })
}

// Undoes the codes of an info that was read whole up to an offset in its function, and its chain.
pub(crate) fn undo_by<M: Memory>(
    m: &mut M,
    area: InfoArea<'_>,
    info: &Info<'_>,
    offset: u32,
    registers: Registers,
) -> Result<Registers, UndoFault>
    requires { ReadWhole info.now }
    ensures answer { result_map_both (λ x. x) undo_fault result ≡ undone_by (M.shows m.old) area.entry (viewed info.now) offset registers }
    ensures same { M.shows m.new ≡ M.shows m.old }
{
    let base = base_after(info, offset, &registers)?;
    let undone = codes_after(m, saves_of(info, base), info.codes(), offset, registers, 0)?;
    undo_chain(m, area, base, info.tail, undone)
}
