// The register set, and which registers a call preserves.
ghost use Rattle.std.specs.Prelude.{◌≡◌};
ghost use Rattle.layout.specs.Registers.{preserved, volatile, xmm_preserved};

use crate::address::Address;

// RIP, the integer registers by number (RAX, RCX, RDX, RBX, RSP, RBP, RSI, RDI, R8 to R15), and XMM 0 to 15.
#[derive(Clone, Copy)]
pub struct Registers {
    pub rip: Address,
    pub integer: [u64; 16],
    pub xmm: [u128; 16],
}

// The number of RSP.
pub const RSP: usize = 4;

// Whether a call keeps this integer register.
pub fn is_preserved(register: u8) -> bool
    ensures { result ≡ preserved register }
{
    matches!(register, 3 | 5 | 6 | 7 | 12 | 13 | 14 | 15)
}

// Whether a call may change this integer register.
pub fn is_volatile(register: u8) -> bool
    ensures { result ≡ volatile register }
{
    matches!(register, 0 | 1 | 2 | 8 | 9 | 10 | 11)
}

// Whether a call keeps this XMM register.
pub fn is_xmm_preserved(register: u8) -> bool
    ensures { result ≡ xmm_preserved register }
{
    (6..=15).contains(&register)
}
