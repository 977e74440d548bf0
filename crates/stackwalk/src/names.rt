// Registers by name.

const INTEGER: [&str; 16] = [
    "RAX", "RCX", "RDX", "RBX", "RSP", "RBP", "RSI", "RDI", "R8", "R9", "R10", "R11", "R12", "R13",
    "R14", "R15",
];

// The name of an integer register.
pub fn integer_name(register: u8) -> &'static str {
    INTEGER.get(usize::from(register)).copied().unwrap_or("?")
}

// The number of an integer register by its name, in either case.
pub fn register_number(name: &str) -> Option<u8> {
    let place = INTEGER.iter().position(|n| n.eq_ignore_ascii_case(name))?;
    u8::try_from(place).ok()
}
