// The limit layer over any memory.
ghost use Rattle.std.specs.Prelude.{◌≡◌, ℕ, true, ◌||◌, is_ok};
ghost use Rattle.std.specs.Result.{result_map_both};
ghost use Rattle.limit.specs.Refusals.{window_number};
ghost use Rattle.limit.specs.Tables.{held};
ghost use Rattle.limit.specs.Windows.{admission, admitted, covered, limited, window_holds};

use crate::table::WindowTable;
use crate::window::{Window, WindowRefusal};
use layout::address::Address;
use memory::reading::{Lacking, Memory};

#[derive(Drop)]
pub struct Limit<M> {
    below: M,
    windows: WindowTable,
}

impl<M> Limit<M> {
    // Shows all of `below`, as no window is admitted yet.
    pub fn new(below: M) -> Limit<M>
        ensures below { result.below ≡ below }
        ensures windows { result.windows.count ≡ 0 }
    {
        Limit {
            below,
            windows: WindowTable::new(),
        }
    }

    // Admits the addresses from `first` to `last`. A first address above the last, or an overlap, is refused
    // with 33, and a seventeenth window with 34; then nothing changes.
    pub fn admit(&mut self, first: Address, last: Address) -> Result<(), WindowRefusal>
        ensures answer { result_map_both (λ x. x) window_number result ≡ admission (held self.old.windows) (record { first = first; last = last }) }
        ensures after { held self.new.windows ≡ admitted (held self.old.windows) (record { first = first; last = last }) }
        ensures grows { is_ok result ≡ true → (at : ℕ) → covered (held self.new.windows) at ≡ (window_holds at (record { first = first; last = last }) || covered (held self.old.windows) at) }
        ensures below { self.new.below ≡ self.old.below }
    {
        self.windows.admit(Window { first, last })
    }
}

impl<M: Memory> Memory for Limit<M> {
    ghost shows = { λ s. limited (held s.windows) (M.Memory.shows s.below) };

    fn read(&mut self, at: Address) -> Result<u8, Lacking> {
        if self.windows.admits(at) {
            self.below.read(at)
        } else {
            Err(Lacking { at })
        }
    }
}
