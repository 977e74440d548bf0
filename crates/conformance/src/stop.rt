// What ends a request without an answer of its own, and how the answer says it.
use infos::refusal::{InfoRefusal, ListRefusal, OUTSIDE_CODES};
use layout::refusal::Numbered;
use limit::window::WindowRefusal;
use memory::range::SourceRefusal;
use plan::refusal::PlanRefusal;
use protocol::bad::Bad;
use readback::refusal::ReadRefusal;
use std::alloc::AllocError;
use tables::refusal::TableRefusal;
use thiserror::Error;

#[derive(Clone, Copy, Debug, Error)]
pub enum Stop {
    // The line cannot be read.
    #[error("bad {0}")]
    Bad(#[from] Bad),
    // A call was refused: one case for each kind of refusal.
    #[error("refused {}", .0.number())]
    Source(#[from] SourceRefusal),
    #[error("refused {}", .0.number())]
    Window(#[from] WindowRefusal),
    #[error("refused {}", .0.number())]
    Table(#[from] TableRefusal),
    #[error("refused {}", .0.number())]
    Plan(#[from] PlanRefusal),
    #[error("refused {}", .0.number())]
    Read(#[from] ReadRefusal),
    // Refused at a slot.
    #[error("refused {} {}", .0.number(), .0.slot_number())]
    Info(#[from] InfoRefusal),
    #[error("refused {} {}", .0.number(), slot_of(.0))]
    List(#[from] ListRefusal),
}

// Where there are too few records, no code is at work.
fn slot_of(refusal: &ListRefusal) -> u16 {
    match refusal {
        ListRefusal::BadInfo(e) => e.slot_number(),
        ListRefusal::TooFewRecords => OUTSIDE_CODES,
    }
}

// By hand: want of memory is told like a line that cannot be read.
impl From<AllocError> for Stop {
    fn from(_e: AllocError) -> Stop {
        Stop::Bad(Bad::NoMemory)
    }
}
