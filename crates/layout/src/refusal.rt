// Refusals by number: each enum of refusals maps its cases to the fixed numbers.
ghost use Rattle.std.specs.Prelude.{◌≡◌, ℕ};

// Not `Into<u16>`: clauses name the number by this trait's ghost function, and the library's trait has only a relation.
pub trait Numbered {
    ghost number: { Self → ℕ };

    fn number(&self) -> u16
        ensures { result ≡ number self.now };
}
