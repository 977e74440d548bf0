// Addresses, and distances from a module's base, which never stand for one another.
ghost use Rattle.std.specs.Prelude.{◌≡◌, ℕ};
ghost use Rattle.layout.specs.Places.{placed, distance};

// A 64-bit address.
#[derive(Clone, Copy, PartialEq, Eq, Debug)]
pub struct Address(pub u64);

// A 32-bit distance from a module's base.
#[derive(Clone, Copy, PartialEq, Eq, Debug)]
pub struct Rva(pub u32);

// What a search can look for: a number of its own kind. Not `Into<u64>`: clauses name the number by this trait's ghost
// function, and the library's trait has only a relation.
pub trait Position: Copy {
    ghost position: { Self → ℕ };

    fn position(self) -> u64
        ensures { result ≡ position self };
}

impl Position for Address {
    ghost position = { λ a. a.0 };

    fn position(self) -> u64 {
        self.0
    }
}

impl Position for Rva {
    ghost position = { λ a. a.0 };

    fn position(self) -> u64 {
        u64::from(self.0)
    }
}

impl Rva {
    // The address this far above `base`, or none where that passes the last address.
    pub fn above(self, base: Address) -> Option<Address>
        ensures { result ≡ placed base self }
    {
        base.0.checked_add(u64::from(self.0)).map(Address)
    }
}

impl Address {
    // How far this lies above `base`, or none where it lies below it or further than 32 bits reach.
    pub fn distance_from(self, base: Address) -> Option<Rva>
        ensures { result ≡ distance base self }
    {
        let far = self.0.checked_sub(base.0)?;
        u32::try_from(far).ok().map(Rva)
    }
}
