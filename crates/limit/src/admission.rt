// What a table of windows admits, and taking a window in.
ghost use Rattle.std.specs.Prelude.{◌≡◌, ℕ, true, ◌||◌, is_ok};
ghost use Rattle.std.specs.Result.{result_map_both};
ghost use Rattle.limit.specs.Refusals.{window_number};
ghost use Rattle.limit.specs.Tables.{held};
ghost use Rattle.limit.specs.Windows.{admission, admitted, covered, open_at, window_holds};

use crate::table::WindowTable;
use crate::window::{Window, WindowRefusal, insert};
use layout::address::Address;
use records::span::find;

impl WindowTable {
    pub fn new() -> WindowTable
        ensures { result.count ≡ 0 }
    {
        WindowTable {
            windows: [Window {
                first: Address(0),
                last: Address(0),
            }; 16],
            count: 0,
        }
    }

    // The windows admitted.
    fn held(&self) -> &[Window]
        ensures { result.now ≡ held self.now }
    {
        &self.windows[0..self.count]
    }

    // Whether `at` lies inside a window, or there is none.
    pub fn admits(&self, at: Address) -> bool
        ensures { result ≡ open_at (held self.now) at.0 }
    {
        self.count == 0 || find(self.held(), at).is_some()
    }

    // Takes a window in at its place, or refuses and leaves all as it was.
    pub fn admit(&mut self, window: Window) -> Result<(), WindowRefusal>
        ensures answer { result_map_both (λ x. x) window_number result ≡ admission (held self.old) window }
        ensures after { held self.new ≡ admitted (held self.old) window }
        ensures grows { is_ok result ≡ true → (at : ℕ) → covered (held self.new) at ≡ (window_holds at window || covered (held self.old) at) }
    {
        let count = self.count;
        if window.last.0 < window.first.0 || window.overlaps(self.held()) {
            return Err(WindowRefusal::Crossing);
        }
        if count == 16 {
            return Err(WindowRefusal::Full);
        }
        let at = window.place(self.held());
        insert(&mut self.windows[0..count + 1], at, window);
        self.count = count + 1;
        Ok(())
    }
}
