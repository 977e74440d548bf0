// Why an unwind info is refused.
ghost use Rattle.std.specs.Prelude.{◌≡◌, Some, None};
ghost use Rattle.std.specs.Option.{unwrap_or};
ghost use Rattle.infos.specs.Refusals.{reason_number, fault_at, info_fault, info_number, list_number};
ghost use Rattle.infos.specs.declared.refusal.ListRefusal.TheVariants.{BadInfo};

use layout::refusal::Numbered;

#[derive(Clone, Copy, PartialEq, Eq, Debug)]
pub enum InfoReason {
    // Misplaced, or cut off by the area's end.
    Cut = 40,
    // Another version than 1.
    Version = 41,
    // Flags above 4.
    Flags = 42,
    // Frame register 4, or a code that is none.
    BadCode = 43,
    // A code's slots pass the slot count.
    PastCount = 44,
    // A code's offset is above the prologue's size, or above the one before it.
    Disorder = 45,
}

// A reason, with the slot of the code at work, or none outside codes.
#[derive(Clone, Copy, PartialEq, Eq, Debug)]
pub struct InfoRefusal {
    pub reason: InfoReason,
    pub slot: Option<u16>,
}

// How reports write that there is no slot: 65535 is the number that they are to have.
pub const OUTSIDE_CODES: u16 = 65535;

impl InfoRefusal {
    // The slot of the code at work, or OUTSIDE_CODES.
    pub fn slot_number(&self) -> u16
        ensures { result ≡ unwrap_or self.now.slot 65535 }
    {
        self.slot.unwrap_or(OUTSIDE_CODES)
    }
}

impl InfoReason {
    // The refusal of a code at this slot.
    pub(crate) fn at(self, slot: u16) -> InfoRefusal
        ensures { info_fault result ≡ fault_at (Some slot) (reason_number self) }
    {
        InfoRefusal {
            reason: self,
            slot: Some(slot),
        }
    }
}

// A refusal outside codes; by hand, since it adds what the reason lacks.
impl From<InfoReason> for InfoRefusal {
    ghost from_gives = { λ e r. r ≡ record { reason = e; slot = None } };

    fn from(reason: InfoReason) -> InfoRefusal {
        InfoRefusal { reason, slot: None }
    }
}

impl Numbered for InfoReason {
    ghost number = { reason_number };

    fn number(&self) -> u16 {
        *self as u16
    }
}

impl Numbered for InfoRefusal {
    ghost number = { info_number };

    fn number(&self) -> u16 {
        self.reason.number()
    }
}

// Why an info's codes are not listed.
#[derive(Clone, Copy, PartialEq, Eq, Debug)]
pub enum ListRefusal {
    BadInfo(InfoRefusal),
    // 22: fewer records than codes.
    TooFewRecords,
}

impl Numbered for ListRefusal {
    ghost number = { list_number };

    // By a match: where a case holds a value, no case can have a number of its own.
    fn number(&self) -> u16 {
        match self {
            ListRefusal::BadInfo(e) => e.number(),
            ListRefusal::TooFewRecords => 22,
        }
    }
}

// By hand, since clauses name the error that `?` makes, and a derived `From` has no contract.
impl From<InfoRefusal> for ListRefusal {
    ghost from_gives = { λ e r. r ≡ BadInfo e };

    fn from(e: InfoRefusal) -> ListRefusal {
        ListRefusal::BadInfo(e)
    }
}
