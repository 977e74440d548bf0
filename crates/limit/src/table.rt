// The limit layer's windows: at most 16, kept in ascending order without overlap.
ghost use Rattle.std.specs.Prelude.{◌≡◌, ◌≤◌, true, take};
ghost use Rattle.limit.specs.Windows.{in_order};

use crate::window::Window;

// The first `count` windows are those admitted. A fixed array with a count: the library has no heap, and the table can be copied.
#[derive(Clone, Copy)]
pub struct WindowTable {
    pub(crate) windows: [Window; 16],
    pub(crate) count: usize,
    ghost ok: { (count ≤ 16) × (in_order (take count windows) ≡ true) },
}
