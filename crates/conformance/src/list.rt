// Lists, what their parts can be read as, and writing them.
use layout::address::Address;
use limit::window::Window;
use memory::range::DumpRange;
use protocol::bad::Bad;
use protocol::number::number;
use protocol::parts::Parts;
use protocol::record::record;
use protocol::write::push_hex;
use std::alloc::{AllocError, Global};

pub trait Notation: Drop {
    fn read(text: &[u8]) -> Result<Self, Bad>
    where
        Self: Sized;
}

// The parts of a list, which `,` joins; `-` is the list with none.
pub fn list<T: Notation>(heap: Global, text: &[u8]) -> Result<Vec<T>, Bad> {
    let mut all = Vec::new(heap);
    for part in Parts::of_list(text) {
        all.push(T::read(part)?)?;
    }
    Ok(all)
}

// Writes what `push` writes for each item, with a separator between two. Items are written by functions over protocol's,
// whose text is proved to read back; an impl of Display would say nothing of it.
fn push_separated<T, F: FnMut(&mut Vec<u8>, &T) -> Result<(), AllocError>>(
    line: &mut Vec<u8>,
    items: &[T],
    separator: u8,
    mut push: F,
) -> Result<(), AllocError>
    requires { F.IsAlwaysCallable push }
{
    for (i, item) in items.iter().enumerate() {
        if i > 0 {
            line.push(separator)?;
        }
        push(line, item)?;
    }
    Ok(())
}

// Writes a list: its items joined by `,`, or `-` for none.
pub fn push_list<T, F: FnMut(&mut Vec<u8>, &T) -> Result<(), AllocError>>(
    line: &mut Vec<u8>,
    items: &[T],
    push: F,
) -> Result<(), AllocError>
    requires { F.IsAlwaysCallable push }
{
    if items.is_empty() {
        return line.extend_from_slice(b"-");
    }
    push_separated(line, items, b',', push)
}

// Numbers in hexadecimal, joined by `.`.
pub fn push_joined(line: &mut Vec<u8>, numbers: &[u32]) -> Result<(), AllocError> {
    push_separated(
        line,
        numbers,
        b'.',
        |line, n| push_hex(line, u128::from(*n)),
    )
}

impl Notation for Address {
    fn read(text: &[u8]) -> Result<Address, Bad> {
        Ok(Address(number(text)?))
    }
}

// `start.length.place`
impl Notation for DumpRange {
    fn read(text: &[u8]) -> Result<DumpRange, Bad> {
        let [start, length, place] = record::<3>(text)?;
        Ok(DumpRange {
            start: Address(start),
            length,
            place,
        })
    }
}

// `first.last`
impl Notation for Window {
    fn read(text: &[u8]) -> Result<Window, Bad> {
        let [first, last] = record::<2>(text)?;
        Ok(Window {
            first: Address(first),
            last: Address(last),
        })
    }
}
