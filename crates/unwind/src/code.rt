// Undoing codes.
ghost use Rattle.std.specs.Prelude.{◌≡◌, ◌^◌, ◌<◌, true, is_ok};
ghost use Rattle.infos.specs.Codings.{codes_left};
ghost use Rattle.infos.specs.Listings.{listed};
ghost use Rattle.infos.specs.Sequences.{gathered};
ghost use Rattle.std.specs.Result.{result_map_both};
ghost use Rattle.memory.specs.Refusals.{item_fault};
ghost use Rattle.unwind.specs.Codes.{difference_at, with_xmm, code_undone, code_fault, in_slot, codes_undone, saved};

use crate::undo::{RSP, pop, sum_at};
use cpu::intent::value_of;
use cpu::processor::put;
use infos::code::{Code, Operation};
use infos::codes::Codes;
use layout::address::Address;
use layout::registers::Registers;
use layout::word::Word;
use memory::item::{ItemFault, read_item};
use memory::reading::Memory;

// A difference that has to be an address.
pub(crate) fn difference_at(a: u64, n: u64) -> Result<u64, ItemFault>
    ensures { result_map_both (λ x. x) item_fault result ≡ difference_at a n }
{
    a.checked_sub(n).ok_or(ItemFault::PastEnd(Address(a)))
}

// Puts a value into an XMM register; there may be no such register.
fn put_xmm(registers: &mut Registers, register: u8, value: u128)
    ensures { registers.new ≡ with_xmm registers.old register value }
{
    // By an index: after `get_mut` a proof knows no element of the array.
    let at = usize::from(register);
    if at < registers.xmm.len() {
        registers.xmm[at] = value;
    }
}

// The item that was saved this far above the base.
fn saved<const N: usize, W: Word<N>, M: Memory>(
    m: &mut M,
    base: u64,
    offset: u32,
) -> Result<W, ItemFault>
    ensures answer { result_map_both W.value item_fault result ≡ saved N (M.shows m.old) base offset }
    ensures same { M.shows m.new ≡ M.shows m.old }
{
    let at = sum_at(base, u64::from(offset))?;
    read_item(m, Address(at))
}

// Where the base of a function's saves stands, its frame register, and that one's offset.
#[derive(Clone, Copy)]
pub(crate) struct Saves {
    pub base: u64,
    pub frame: u8,
    pub offset: u8,
}

// What ends the undoing of a code, and that code's first slot.
#[derive(Clone, Copy, PartialEq, Eq, Debug)]
pub struct CodeFault {
    pub fault: ItemFault,
    pub slot: u16,
}

// Undoes an operation.
pub(crate) fn undo<M: Memory>(
    m: &mut M,
    saves: Saves,
    operation: Operation,
    mut registers: Registers,
) -> Result<Registers, ItemFault>
    ensures answer { result_map_both (λ x. x) item_fault result ≡ code_undone (M.shows m.old) saves operation registers }
    ensures same { M.shows m.new ≡ M.shows m.old }
{
    match operation {
        Operation::Push(register) => return pop(m, registers, register),
        Operation::Allocate(size) => {
            let rsp = sum_at(value_of(&registers, RSP), u64::from(size))?;
            put(&mut registers, RSP, rsp);
        }
        Operation::SetFrame => {
            let frame = value_of(&registers, saves.frame);
            let rsp = difference_at(frame, u64::from(saves.offset))?;
            put(&mut registers, RSP, rsp);
        }
        Operation::Save { register, offset } => {
            let word: u64 = saved(m, saves.base, offset)?;
            put(&mut registers, register, word);
        }
        Operation::SaveXmm { register, offset } => {
            let word: u128 = saved(m, saves.base, offset)?;
            put_xmm(&mut registers, register, word);
        }
    }
    Ok(registers)
}

// Undoes a code.
fn undo_code<M: Memory>(
    m: &mut M,
    saves: Saves,
    code: Code,
    registers: Registers,
) -> Result<Registers, CodeFault>
    requires { code.slot < 2 ^ 16 }
    ensures answer { result_map_both (λ x. x) code_fault result ≡ in_slot code.slot (code_undone (M.shows m.old) saves code.operation registers) }
    ensures same { M.shows m.new ≡ M.shows m.old }
{
    let slot = code.slot as u16;
    undo(m, saves, code.operation, registers).map_err(|fault| CodeFault { fault, slot })
}

// Undoes codes, none of which is refused, as far as their prologue offset is at most `limit`.
pub(crate) fn undo_codes<M: Memory>(
    m: &mut M,
    saves: Saves,
    codes: Codes<'_>,
    limit: u32,
    mut registers: Registers,
) -> Result<Registers, CodeFault>
    requires { is_ok (gathered (codes_left codes)) ≡ true }
    ensures answer { result_map_both (λ x. x) code_fault result ≡ codes_undone (M.shows m.old) saves limit (listed (gathered (codes_left codes.entry))) registers }
    ensures same { M.shows m.new ≡ M.shows m.old }
{
    for code in codes {
        let code = code.unwrap();
        if u32::from(code.offset) <= limit {
            registers = undo_code(m, saves, code, registers)?;
        }
    }
    Ok(registers)
}
