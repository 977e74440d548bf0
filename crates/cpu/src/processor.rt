// A register set over a stack area, and carrying intents out on them where the area and RSP allow it.
ghost use Rattle.std.specs.Prelude.{◌≡◌, ◌-◌, true, is_ok, if◌then◌else◌, Ok, Err};
ghost use Rattle.std.specs.Result.{result_map_both};
ghost use Rattle.layout.specs.Words.{le_at};
ghost use Rattle.cpu.specs.Effects.{intended};
ghost use Rattle.cpu.specs.Performance.{stack_number, holds_word, in_area, word_in, accessible_in, permitted_in, changed, loading, stack_after, performed, with_register};
ghost use Rattle.cpu.specs.Processors.{state_of, in_state, with_registers};

use crate::intent::{Access, Change, Intent, intent_of};
use layout::address::Address;
use layout::refusal::Numbered;
use layout::registers::{RSP, Registers};
use layout::word::{le_at, write_word};
use x64::instruction::Instruction;

// 62: an access outside the stack area, or RSP outside it afterwards.
#[derive(Clone, Copy, PartialEq, Eq, Debug)]
pub struct OutsideStack;

impl Numbered for OutsideStack {
    ghost number = { stack_number };

    fn number(&self) -> u16 {
        62
    }
}

// Puts a value into an integer register; there may be no such register.
pub fn put(registers: &mut Registers, register: u8, value: u64)
    ensures { registers.new ≡ with_register registers.old register value }
{
    // By an index: after `get_mut` a proof knows no element of the array.
    let at = usize::from(register);
    if at < registers.integer.len() {
        registers.integer[at] = value;
    }
}

// Whether the eight bytes at an address lie in an area of `size` bytes, of which the first has the address `low`.
pub fn holds(low: u64, size: usize, at: u64) -> bool
    ensures { result ≡ holds_word low size at }
{
    low <= at && size >= 8 && at - low <= size as u64 - 8
}

// A stack area that is only read: bytes of which the first has the address `low`.
#[derive(Clone, Copy)]
pub struct Area<'a> {
    pub low: u64,
    pub bytes: &'a [u8],
}

impl<'a> Area<'a> {
    // Whether the eight bytes at an address lie in the area.
    pub fn holds(self, at: u64) -> bool
        ensures { result ≡ in_area self.entry at }
    {
        holds(self.low, self.bytes.len(), at)
    }

    // The word at an address, which lies in the area.
    fn word(self, at: u64) -> u64
        requires { in_area self at ≡ true }
        ensures { result ≡ le_at 8 self.entry.bytes.now (at - self.entry.low) }
    {
        le_at(self.bytes, (at - self.low) as usize)
    }

    // The word at an address of the area, or none where it does not lie there.
    pub fn word_at(self, at: u64) -> Option<u64>
        ensures { result ≡ word_in self.entry at }
    {
        // Tried with `then`: the proof did not close, since it knows nothing of what a closure over the area answers.
        if !self.holds(at) {
            return None;
        }
        Some(self.word(at))
    }
}

// A register set, and a stack area in the caller's bytes, whose first byte has the address `low`.
#[derive(Drop)]
pub struct Processor<'a> {
    pub registers: Registers,
    pub low: u64,
    pub stack: &'a mut [u8],
}

impl<'a> Processor<'a> {
    // The stack area, to be read.
    pub fn area(&self) -> Area<'_>
        ensures low { result.low ≡ self.now.low }
        ensures bytes { result.bytes.now ≡ self.now.stack.now }
    {
        Area {
            low: self.low,
            bytes: self.stack,
        }
    }

    // Whether the word accessed lies in the area, and RSP afterwards stands from its first address up to its end.
    fn permits(&self, intent: Intent) -> bool
        ensures { result ≡ permitted_in intent (state_of self.now) }
    {
        let (low, size) = (self.low, self.stack.len());
        let reached = intent.access.is_none_or(|a| holds(low, size, a.at()));
        reached && low <= intent.rsp && intent.rsp - low <= size as u64
    }

    fn make_change(&mut self, change: Option<Change>)
        ensures { self.new ≡ with_registers self.old (changed change self.old.registers) }
    {
        if let Some(Change { register, value }) = change {
            put(&mut self.registers, register, value);
        }
    }

    // Loads a register or RIP from the area, or sets RIP.
    fn load(&mut self, intent: Intent)
        requires { accessible_in intent.access (state_of self.old) ≡ true }
        ensures { self.new ≡ with_registers self.old (loading intent self.old.low self.old.stack.now self.old.registers) }
    {
        self.registers.rip = Address(intent.rip);
        match intent.access {
            Some(Access::Load { at, register }) => {
                let word = self.area().word(at);
                put(&mut self.registers, register, word)
            }
            Some(Access::Return { at }) => self.registers.rip = Address(self.area().word(at)),
            Some(Access::Store { .. }) | None => {}
        }
    }

    fn store(&mut self, intent: Intent)
        requires { accessible_in intent.access (state_of self.old) ≡ true }
        ensures { self.new ≡ in_state self.old (record (state_of self.old) { stack = stack_after intent self.old.low self.old.stack.now }) }
    {
        if let Some(Access::Store { at, value }) = intent.access {
            write_word(self.stack, (at - self.low) as usize, value).unwrap();
        }
    }

    // Carries the intent out, or refuses with 62 and changes nothing.
    pub fn perform(&mut self, intent: Intent) -> Result<(), OutsideStack>
        ensures answer { result_map_both (λ x. x) stack_number result ≡ (if permitted_in intent (state_of self.old) then Ok tt else Err 62) }
        ensures after { self.new ≡ (if is_ok result then in_state self.old (performed intent (state_of self.old)) else self.old) }
    {
        if !self.permits(intent) {
            return Err(OutsideStack);
        }
        self.make_change(intent.change);
        self.load(intent);
        self.registers.integer[RSP] = intent.rsp;
        self.store(intent);
        Ok(())
    }

    // Carries out an instruction of `taken` bytes at RIP, or refuses with 62 and changes nothing.
    pub fn execute(&mut self, i: Instruction, taken: u64) -> Result<(), OutsideStack>
        ensures answer { result_map_both (λ x. x) stack_number result ≡ (if permitted_in (intended i taken self.old.registers) (state_of self.old) then Ok tt else Err 62) }
        ensures after { self.new ≡ (if is_ok result then in_state self.old (performed (intended i taken self.old.registers) (state_of self.old)) else self.old) }
    {
        let intent = intent_of(i, taken, &self.registers);
        self.perform(intent)
    }
}
