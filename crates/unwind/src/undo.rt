// What undoing does to registers, over any memory.
ghost use Rattle.std.specs.Prelude.{◌≡◌};
ghost use Rattle.std.specs.Result.{result_map_both};
ghost use Rattle.memory.specs.Refusals.{item_fault};
ghost use Rattle.unwind.specs.Undoing.{sum_at, displaced_at, popped, returned, moved};

use cpu::intent::value_of;
use cpu::processor::put;
use layout::address::Address;
use layout::registers::Registers;
use memory::item::{ItemFault, read_item};
use memory::reading::Memory;

// The number of RSP, as instructions and codes have it.
pub(crate) const RSP: u8 = 4;

// A sum that has to be an address.
pub(crate) fn sum_at(a: u64, n: u64) -> Result<u64, ItemFault>
    ensures { result_map_both (λ x. x) item_fault result ≡ sum_at a n }
{
    a.checked_add(n).ok_or(ItemFault::PastEnd(Address(a)))
}

// The same with a displacement of 32 signed bits.
fn displaced_at(a: u64, d: u32) -> Result<u64, ItemFault>
    ensures { result_map_both (λ x. x) item_fault result ≡ displaced_at a d }
{
    let n = d.cast_signed();
    let size = u64::from(n.unsigned_abs());
    let sum = if n < 0 {
        a.checked_sub(size)
    } else {
        a.checked_add(size)
    };
    sum.ok_or(ItemFault::PastEnd(Address(a)))
}

// RSP becomes the value of a register plus a displacement.
pub(crate) fn move_rsp(
    mut registers: Registers,
    register: u8,
    d: u32,
) -> Result<Registers, ItemFault>
    ensures { result_map_both (λ x. x) item_fault result ≡ moved register d registers }
{
    let rsp = displaced_at(value_of(&registers, register), d)?;
    put(&mut registers, RSP, rsp);
    Ok(registers)
}

// Pops a register.
pub(crate) fn pop<M: Memory>(
    m: &mut M,
    mut registers: Registers,
    register: u8,
) -> Result<Registers, ItemFault>
    ensures answer { result_map_both (λ x. x) item_fault result ≡ popped (M.shows m.old) register registers }
    ensures same { M.shows m.new ≡ M.shows m.old }
{
    let rsp = value_of(&registers, RSP);
    let word: u64 = read_item(m, Address(rsp))?;
    let above = sum_at(rsp, 8)?;
    put(&mut registers, register, word);
    put(&mut registers, RSP, above);
    Ok(registers)
}

// Pops RIP.
pub(crate) fn pop_rip<M: Memory>(
    m: &mut M,
    mut registers: Registers,
) -> Result<Registers, ItemFault>
    ensures answer { result_map_both (λ x. x) item_fault result ≡ returned (M.shows m.old) registers }
    ensures same { M.shows m.new ≡ M.shows m.old }
{
    let rsp = value_of(&registers, RSP);
    let word: u64 = read_item(m, Address(rsp))?;
    let above = sum_at(rsp, 8)?;
    registers.rip = Address(word);
    put(&mut registers, RSP, above);
    Ok(registers)
}
