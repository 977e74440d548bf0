// The base that a function's saves are measured from.
ghost use Rattle.std.specs.Prelude.{◌≡◌, true, is_ok};
ghost use Rattle.std.specs.Result.{result_map_both};
ghost use Rattle.infos.specs.Codings.{codes_left};
ghost use Rattle.infos.specs.Listings.{listed};
ghost use Rattle.infos.specs.Sequences.{gathered};
ghost use Rattle.infos.specs.Infos.{viewed};
ghost use Rattle.memory.specs.Refusals.{item_fault};
ghost use Rattle.unwind.specs.Chains.{codes_in, ReadWhole};
ghost use Rattle.unwind.specs.Bases.{set_by, frame_is_set, base};

use crate::code::difference_at;
use crate::undo::RSP;
use cpu::intent::value_of;
use infos::code::{Code, Operation};
use infos::codes::Codes;
use infos::info::{Info, Tail};
use layout::registers::Registers;
use memory::item::ItemFault;

fn is_set_by(code: Code, limit: u32) -> bool
    ensures { result ≡ set_by limit code }
{
    matches!(code.operation, Operation::SetFrame) && u32::from(code.offset) <= limit
}

// Whether codes, none of which is refused, set the frame register at an offset up to `limit`.
pub(crate) fn is_frame_set(codes: Codes<'_>, limit: u32) -> bool
    requires { is_ok (gathered (codes_left codes)) ≡ true }
    ensures { result ≡ frame_is_set limit (listed (gathered (codes_left codes.entry))) }
{
    for code in codes {
        let code = code.unwrap();
        if is_set_by(code, limit) {
            return true;
        }
    }
    false
}

// The base for an offset in the function, with the frame's registers before any code is undone.
pub(crate) fn base_of(info: &Info<'_>, offset: u32, registers: &Registers) -> Result<u64, ItemFault>
    requires { ReadWhole info.now }
    ensures { result_map_both (λ x. x) item_fault result ≡ base (viewed info.now) (codes_in (viewed info.now)) offset registers.now }
{
    let is_chained = matches!(info.tail, Tail::Chained(_));
    let in_prologue = !is_chained && offset < u32::from(info.prologue);
    if info.frame_register == 0 || in_prologue && !is_frame_set(info.codes(), offset) {
        return Ok(value_of(registers, RSP));
    }
    let frame = value_of(registers, info.frame_register);
    difference_at(frame, u64::from(info.frame_offset))
}
