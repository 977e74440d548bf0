// One search for every kind of record with a first and a last position.
ghost use Rattle.std.specs.Prelude.{◌≡◌, ℕ, ◌<◌, ◌≤◌, true, length, IfSome, slice_index_or, nat_le};
ghost use Rattle.records.specs.Spans.{ascending, found};

use layout::address::Position;

// A record that runs from its first to its last position, both included.
pub trait Span {
    type Key: Position;

    ghost first: { Self → ℕ };

    ghost last: { Self → ℕ };

    fn first(&self) -> Self::Key
        ensures { Self.Key.Position.position result ≡ first self.now };

    fn last(&self) -> Self::Key
        ensures { Self.Key.Position.position result ≡ last self.now };
}

// The index of the record that holds `key`, or none, by halving. By a loop of its own: the library's searches go on to the end
// where the record in the middle holds the key.
// On records that are not in ascending order it may miss one, but what it answers does hold the key.
pub fn find<R: Span>(records: &[R], key: R::Key) -> Option<usize>
    ensures finds { ascending R.first R.last records.now ≡ true → result ≡ found R.first R.last (R.Key.Position.position key) records.now }
    ensures inside { IfSome result (λ i. (i < length records.now) × ((d : R) → (R.first (slice_index_or records.now i d) ≤ R.Key.Position.position key) × (R.Key.Position.position key ≤ R.last (slice_index_or records.now i d)))) }
{
    let wanted = key.position();
    let mut low = 0;
    let mut high = records.len();
    while low < high {
        let middle = low + (high - low) / 2;
        let record = &records[middle];
        if wanted < record.first().position() {
            high = middle;
        } else if record.last().position() < wanted {
            low = middle + 1;
        } else {
            return Some(middle);
        }
    }
    None
}

// Whether a record does not end before it starts.
fn is_whole<R: Span>(x: &R) -> bool
    ensures { result ≡ nat_le (R.first x.now) (R.last x.now) }
{
    x.first().position() <= x.last().position()
}

// Whether no record ends before it starts, and each starts past the end of the one before. The last has none behind it, so it
// is tested by itself, first; the pass over the others ends at the first pair that is out of order.
pub fn ascends<R: Span>(records: &[R]) -> bool
    ensures { result ≡ ascending R.first R.last records.now }
{
    let Some(last) = records.last() else {
        return true;
    };
    is_whole(last)
        && records.is_sorted_by(|x, y| is_whole(x) && x.last().position() < y.first().position())
}
