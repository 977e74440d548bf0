// What an instruction is about to do, from the registers alone.
ghost use Rattle.std.specs.Prelude.{◌≡◌, Some};
ghost use Rattle.cpu.specs.Effects.{signed, moved, moved_back, intended, register_value, below, above, place};

use layout::registers::{RSP, Registers};
use x64::instruction::Instruction;

// The word of the stack area that an instruction accesses.
#[derive(Clone, Copy, PartialEq, Eq, Debug)]
pub enum Access {
    Store { at: u64, value: u64 },
    Load { at: u64, register: u8 },
    // Its word becomes RIP.
    Return { at: u64 },
}

impl Access {
    // The address of the word.
    pub fn at(self) -> u64
        ensures { result ≡ place self }
    {
        match self {
            Access::Store { at, .. } | Access::Load { at, .. } | Access::Return { at } => at,
        }
    }
}

// A register that gets a value, besides RSP and what is loaded.
#[derive(Clone, Copy, PartialEq, Eq, Debug)]
pub struct Change {
    pub register: u8,
    pub value: u64,
}

// The access, the register changed, and RSP and RIP afterwards.
#[derive(Clone, Copy, PartialEq, Eq, Debug)]
pub struct Intent {
    pub access: Option<Access>,
    pub change: Option<Change>,
    pub rsp: u64,
    pub rip: u64,
}

impl Intent {
    fn store(self, at: u64, value: u64) -> Intent
        ensures { result ≡ record self { access = Some (Access.Store at value) } }
    {
        let access = Some(Access::Store { at, value });
        Intent { access, ..self }
    }

    fn load(self, at: u64, register: u8) -> Intent
        ensures { result ≡ record self { access = Some (Access.Load at register) } }
    {
        let access = Some(Access::Load { at, register });
        Intent { access, ..self }
    }

    fn set(self, register: u8, value: u64) -> Intent
        ensures { result ≡ record self { change = Some (record { register = register; value = value }) } }
    {
        let change = Some(Change { register, value });
        Intent { change, ..self }
    }

    // Stores at RSP less 8, where RSP then stands.
    fn push(self, value: u64) -> Intent
        ensures { result ≡ record self { access = Some (Access.Store (below self.rsp) value); rsp = below self.rsp } }
    {
        let rsp = self.rsp.wrapping_sub(8);
        Intent { rsp, ..self }.store(rsp, value)
    }

    // Accesses the word at RSP, which then stands above it.
    fn pop(self, access: Access) -> Intent
        ensures { result ≡ record self { access = Some access; rsp = above self.rsp } }
    {
        Intent {
            access: Some(access),
            rsp: self.rsp.wrapping_add(8),
            ..self
        }
    }
}

// 32 signed bits as 64.
fn extend(d: u32) -> u64
    ensures { result ≡ signed d }
{
    i64::from(d.cast_signed()).cast_unsigned()
}

fn ahead(from: u64, d: u32) -> u64
    ensures { result ≡ moved from d }
{
    from.wrapping_add(extend(d))
}

fn behind(from: u64, d: u32) -> u64
    ensures { result ≡ moved_back from d }
{
    from.wrapping_sub(extend(d))
}

// The value of an integer register. An instruction may have any number for a register; where there is none of that
// number, its value is 0, here and in the definition.
pub fn value_of(registers: &Registers, register: u8) -> u64
    ensures { result ≡ register_value registers.now register }
{
    registers
        .integer
        .get(usize::from(register))
        .copied()
        .unwrap_or(0)
}

// What an instruction of `length` bytes at RIP is about to do.
pub fn intent_of(i: Instruction, length: u64, registers: &Registers) -> Intent
    ensures { result ≡ intended i length registers.now }
{
    let rsp = registers.integer[RSP];
    let next = registers.rip.0.wrapping_add(length);
    let on = Intent {
        access: None,
        change: None,
        rsp,
        rip: next,
    };
    match i {
        Instruction::Push(r) => on.push(value_of(registers, r)),
        Instruction::Pop(register) => on.pop(Access::Load { at: rsp, register }),
        Instruction::SubRsp(d) => Intent {
            rsp: behind(rsp, d),
            ..on
        },
        Instruction::AddRsp(d) => Intent {
            rsp: ahead(rsp, d),
            ..on
        },
        Instruction::StoreAtRsp {
            register,
            displacement,
        } => on.store(ahead(rsp, displacement), value_of(registers, register)),
        Instruction::LoadAtRsp {
            register,
            displacement,
        } => on.load(ahead(rsp, displacement), register),
        Instruction::LeaAtRsp {
            register,
            displacement,
        } => on.set(register, ahead(rsp, displacement)),
        Instruction::StoreAtFrame {
            register,
            frame,
            displacement,
        } => on.store(
            ahead(value_of(registers, frame), displacement),
            value_of(registers, register),
        ),
        Instruction::LoadAtFrame {
            register,
            frame,
            displacement,
        } => on.load(ahead(value_of(registers, frame), displacement), register),
        Instruction::LeaRspAtFrame {
            frame,
            displacement,
        } => Intent {
            rsp: ahead(value_of(registers, frame), displacement),
            ..on
        },
        Instruction::Set { register, value } => on.set(register, extend(value)),
        Instruction::Nop => on,
        Instruction::Call(d) => Intent {
            rip: ahead(next, d),
            ..on.push(next)
        },
        Instruction::Ret => on.pop(Access::Return { at: rsp }),
    }
}
