// A list over the caller's records, which appends until they are used up.
ghost use Rattle.std.specs.Prelude.{◌≡◌, ◌+◌, ◌<◌, ◌≤◌, [], ◌∷◌, ◌++◌, length, take, is_ok, if◌then◌else◌, Ok, Err, nat_lt, slice_set};
ghost use Rattle.std.specs.Result.{result_map_both};
ghost use Rattle.records.specs.Refusals.{list_number};

use layout::refusal::Numbered;

// Refusal 22: no record is left.
#[derive(Clone, Copy, PartialEq, Eq, Debug)]
pub struct NoRecord;

impl Numbered for NoRecord {
    ghost number = { list_number };

    fn number(&self) -> u16 {
        22
    }
}

// The first `len` of the caller's records are the list; the others are as the caller left them.
// With a count beside the slice: the library allocates nothing, so the records are the caller's and no Vec.
#[derive(Drop)]
pub struct RecordList<'a, T> {
    records: &'a mut [T],
    len: usize,
    ghost fits: { len ≤ length records.now },
}

impl<'a, T: Copy> RecordList<'a, T> {
    // No record is used yet.
    pub fn new(records: &'a mut [T]) -> RecordList<'a, T>
        ensures records { result.records.now ≡ records.old }
        ensures len { result.len ≡ 0 }
        ensures lender { result.records.ghost_name ≡ records.entry.ghost_name }
    {
        RecordList { records, len: 0 }
    }

    // How many records the list has.
    pub fn len(&self) -> usize
        ensures { result ≡ self.now.len }
    {
        self.len
    }

    // Appends `x`; with no record left it changes nothing.
    pub fn push(&mut self, x: T) -> Result<(), NoRecord>
        ensures answer { result_map_both (λ x. x) list_number result ≡ (if nat_lt self.old.len (length self.old.records.now) then Ok tt else Err 22) }
        ensures len { self.new.len ≡ (if is_ok result then self.old.len + 1 else self.old.len) }
        ensures records { self.new.records.now ≡ (if is_ok result then slice_set self.old.records.now self.old.len x else self.old.records.now) }
        ensures items { take self.new.len self.new.records.now ≡ (if is_ok result then take self.old.len self.old.records.now ++ x ∷ [] else take self.old.len self.old.records.now) }
        ensures lender { self.new.records.ghost_name ≡ self.old.records.ghost_name }
    {
        let RecordList { records, len } = self;
        if *len >= records.len() {
            return Err(NoRecord);
        }
        records[*len] = x;
        *len += 1;
        Ok(())
    }
}
