// The view of an unwind info.
ghost use Rattle.std.specs.Prelude.{◌≡◌, ◌≤◌, length, take};
ghost use Rattle.infos.specs.Sequences.{codes_of, gathered};

use crate::codes::Codes;
use layout::address::Rva;
use tables::entry::Entry;

// What stands after the slots.
// One enum of the format's three cases, as this project wants it, and not an Option of two: whoever looks tells all three
// apart at once.
#[derive(Clone, Copy)]
pub enum Tail<'a> {
    None,
    // A handler, with its data up to the area's end.
    Handler { rva: Rva, data: &'a [u8] },
    // The entry whose info goes on with this one.
    Chained(Entry),
}

// An info as its header says, with its slots as a part of the area that it was read from.
#[derive(Clone, Copy)]
pub struct Info<'a> {
    // As the header has them: reports print them, and the tail does not tell 1, 2 and 3 apart.
    pub flags: u8,
    pub prologue: u8,
    // The header's number, as the view promises it; the slots hold two bytes for each.
    pub count: u8,
    // 0 where there is none, as the format has it and as reports print it: no Option, since the number is the format's.
    pub frame_register: u8,
    pub frame_offset: u8,
    // Where in the area the slots stand.
    pub place: usize,
    pub slots: &'a [u8],
    pub tail: Tail<'a>,
}

impl<'a> Info<'a> {
    ghost use Rattle.infos.specs.Codings.{codes_left};

    // Its codes, one by one. An info has at most 255 slots; what a caller's own has past them is left out.
    pub fn codes(&self) -> Codes<'a>
        ensures value { gathered (codes_left result) ≡ codes_of self.now.prologue self.now.frame_register (take 510 self.now.slots.now) }
        ensures whole { length self.now.slots.now ≤ 510 → gathered (codes_left result) ≡ codes_of self.now.prologue self.now.frame_register self.now.slots.now }
    {
        let most = usize::min(510, self.slots.len());
        Codes::new(&self.slots[..most], self.prologue, self.frame_register)
    }
}
