// Windows of the limit layer, and the steps of admitting one.
ghost use Rattle.std.specs.Prelude.{◌≡◌, ◌-◌, ◌<◌, length, take};
ghost use Rattle.std.specs.List.{insert};
ghost use Rattle.limit.specs.Refusals.{window_number};
ghost use Rattle.limit.specs.Windows.{window_first, window_last, touches, overlaps_any, place_of};

use layout::address::Address;
use layout::refusal::Numbered;
use records::span::Span;

// From the first to the last address, both included.
#[derive(Clone, Copy)]
pub struct Window {
    pub first: Address,
    pub last: Address,
}

// Why a window is not admitted; each case is its number.
#[derive(Clone, Copy, PartialEq, Eq, Debug)]
pub enum WindowRefusal {
    // The first address above the last, or an overlap with a window admitted before.
    Crossing = 33,
    // Sixteen windows are admitted already.
    Full = 34,
}

impl Numbered for WindowRefusal {
    ghost number = { window_number };

    fn number(&self) -> u16 {
        *self as u16
    }
}

impl Span for Window {
    type Key = Address;

    ghost first = { window_first };

    ghost last = { window_last };

    fn first(&self) -> Address {
        self.first
    }

    fn last(&self) -> Address {
        self.last
    }
}

impl Window {
    // Whether the two share an address.
    fn touches(self, other: Window) -> bool
        ensures { result ≡ touches self other }
    {
        other.first.0 <= self.last.0 && self.first.0 <= other.last.0
    }

    // Whether it shares an address with one of `held`.
    pub(crate) fn overlaps(self, held: &[Window]) -> bool
        ensures { result ≡ overlaps_any self held.now }
    {
        held.iter().any(|x| self.touches(*x))
    }

    // How many of `held` end before it starts.
    pub(crate) fn place(self, held: &[Window]) -> usize
        ensures { result ≡ place_of self held.now }
    {
        held.iter().take_while(|x| x.last.0 < self.first.0).count()
    }
}

// Puts `window` at `at`, and moves what stands there up by one; what the last slot held is lost.
pub(crate) fn insert(slots: &mut [Window], at: usize, window: Window)
    requires { at < length slots.old }
    ensures { slots.new ≡ insert (take (length slots.old - 1) slots.old) at window }
{
    let end = slots.len() - 1;
    slots[end] = window;
    slots[at..].rotate_right(1);
}
