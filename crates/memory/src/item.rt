// Items of a memory, read upward byte by byte.
ghost use Rattle.std.specs.Prelude.{◌≡◌, length};
ghost use Rattle.std.specs.Result.{result_map_both};
ghost use Rattle.memory.specs.Items.{item, item_byte, item_bytes};
ghost use Rattle.memory.specs.Refusals.{item_fault, item_number};
ghost use Rattle.memory.specs.declared.item.ItemFault.TheVariants.{Unread};

use crate::reading::{Lacking, Memory};
use layout::address::Address;
use layout::refusal::Numbered;
use layout::word::Word;

// What stops the reading of an item.
#[derive(Clone, Copy, PartialEq, Eq, Debug)]
pub enum ItemFault {
    // 30: a byte is lacking.
    Unread(Lacking),
    // 50: an address of the item passes the last one; the item starts here.
    PastEnd(Address),
}

impl Numbered for ItemFault {
    ghost number = { item_number };

    // By a match: where a case holds a value, no case can have a number of its own.
    fn number(&self) -> u16 {
        match self {
            ItemFault::Unread(lacking) => lacking.number(),
            ItemFault::PastEnd(_) => 50,
        }
    }
}

// By hand, since clauses name the error that `?` makes, and a derived `From` has no contract.
impl From<Lacking> for ItemFault {
    ghost from_gives = { λ e r. r ≡ Unread e };

    fn from(e: Lacking) -> ItemFault {
        ItemFault::Unread(e)
    }
}

// Byte `i` of the item that starts at `start`.
fn read_byte<M: Memory>(m: &mut M, start: Address, i: u64) -> Result<u8, ItemFault>
    ensures answer { result_map_both (λ x. x) item_fault result ≡ item_byte (M.shows m.old) start.0 i }
    ensures same { M.shows m.new ≡ M.shows m.old }
{
    let at = start.0.checked_add(i).ok_or(ItemFault::PastEnd(start))?;
    Ok(m.read(Address(at))?)
}

// Fills `out` with the bytes of the item that starts at `start`.
fn read_bytes<M: Memory>(m: &mut M, start: Address, out: &mut [u8]) -> Result<(), ItemFault>
    ensures answer { result_map_both (λ _. out.new) item_fault result ≡ item_bytes (M.shows m.old) start.0 (length out.old) }
    ensures same { M.shows m.new ≡ M.shows m.old }
{
    for (i, byte) in out.iter_mut().enumerate() {
        *byte = read_byte(m, start, i as u64)?;
    }
    Ok(())
}

// The `N` bytes from `start` on, as a number.
pub fn read_item<const N: usize, W: Word<N>, M: Memory>(
    m: &mut M,
    start: Address,
) -> Result<W, ItemFault>
    ensures answer { result_map_both W.value item_fault result ≡ item N (M.shows m.old) start.0 }
    ensures same { M.shows m.new ≡ M.shows m.old }
{
    let mut bytes = [0; N];
    read_bytes(m, start, &mut bytes)?;
    Ok(W::of_le_bytes(bytes))
}
