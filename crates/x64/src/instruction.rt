// The instruction set. Registers are by number, any number: a type of their own would be narrower than what callers may
// give today. Displacements and immediates are 32 signed bits as their pattern.

#[derive(Clone, Copy, PartialEq, Eq, Debug)]
pub enum Instruction {
    Push(u8),
    Pop(u8),
    SubRsp(u32),
    AddRsp(u32),
    // At RSP plus a displacement.
    StoreAtRsp {
        register: u8,
        displacement: u32,
    },
    LoadAtRsp {
        register: u8,
        displacement: u32,
    },
    LeaAtRsp {
        register: u8,
        displacement: u32,
    },
    // At a frame register plus a displacement.
    StoreAtFrame {
        register: u8,
        frame: u8,
        displacement: u32,
    },
    LoadAtFrame {
        register: u8,
        frame: u8,
        displacement: u32,
    },
    // RSP becomes a frame register plus a displacement.
    LeaRspAtFrame {
        frame: u8,
        displacement: u32,
    },
    Set {
        register: u8,
        value: u32,
    },
    Nop,
    // To the address after the instruction plus a displacement.
    Call(u32),
    Ret,
}
