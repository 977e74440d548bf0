// Piles of layers read through one contract, and examples of every refusal of sources and limits.
#![tactic(auto)]

ghost use Rattle.std.specs.Prelude.{◌≡◌};
ghost use Rattle.std.specs.Result.{result_map_both};
ghost use Rattle.limit.specs.Tables.{held};
ghost use Rattle.limit.specs.Windows.{limited};
ghost use Rattle.memory.specs.Items.{item};
ghost use Rattle.memory.specs.Reads.{answer};
ghost use Rattle.memory.specs.Refusals.{item_fault};

use layout::address::Address;
use limit::layer::Limit;
use memory::item::{ItemFault, read_item};
use memory::reading::{Lacking, Memory};

#[cfg(test)]
mod limits;
#[cfg(test)]
mod sources;
#[cfg(test)]
mod words;

#[cfg(test)]
fn lacking(at: u64) -> Lacking {
    Lacking { at: Address(at) }
}

// A byte through two limits over any memory: the outer windows first, then the inner ones, then what lies below.
pub fn byte_through<M: Memory>(pile: &mut Limit<Limit<M>>, at: Address) -> Result<u8, Lacking>
    ensures answer { result ≡ answer (limited (held pile.old.windows) (limited (held pile.old.below.windows) (M.shows pile.old.below.below)) at.0) at }
{
    pile.read(at)
}

// A word through the same.
pub fn word_through<M: Memory>(pile: &mut Limit<Limit<M>>, at: Address) -> Result<u64, ItemFault>
    ensures { result_map_both (λ x. x) item_fault result ≡ item 8 (limited (held pile.old.windows) (limited (held pile.old.below.windows) (M.shows pile.old.below.below))) at.0 }
{
    read_item(pile, at)
}
