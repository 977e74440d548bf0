// The reading rule, which every memory proves.
ghost use Rattle.std.specs.Prelude.{◌≡◌, ℕ};
ghost use Rattle.memory.specs.Byte.{Byte};
ghost use Rattle.memory.specs.Reads.{answer, read_number};

use layout::address::Address;
use layout::refusal::Numbered;

// Refusal 30: the memory lacks the byte at this address.
#[derive(Clone, Copy, PartialEq, Eq, Debug)]
pub struct Lacking {
    pub at: Address,
}

impl Numbered for Lacking {
    ghost number = { read_number };

    fn number(&self) -> u16 {
        30
    }
}

pub trait Memory {
    // What the memory shows at each address.
    ghost shows: { Self → ℕ → Byte };

    // The byte shown at `at` or, exactly if that byte is lacking, the refusal with the address.
    // Refused or not, the memory shows afterwards what it showed before.
    fn read(&mut self, at: Address) -> Result<u8, Lacking>
        ensures answer { result ≡ answer (shows self.old at.0) at }
        ensures same { shows self.new ≡ shows self.old };
}
