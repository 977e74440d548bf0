// The area that holds a module's unwind infos.
use layout::address::Rva;

// Its bytes, of which the first lies at the RVA `start`.
#[derive(Clone, Copy)]
pub struct InfoArea<'a> {
    pub bytes: &'a [u8],
    pub start: Rva,
}
