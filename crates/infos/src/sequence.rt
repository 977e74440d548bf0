// What each code of an info has to keep to, by those before it.
ghost use Rattle.std.specs.Prelude.{◌≡◌};
ghost use Rattle.std.specs.Result.{result_map_both};
ghost use Rattle.infos.specs.Refusals.{reason_number};
ghost use Rattle.infos.specs.Sequences.{admitted, before_codes};

use crate::code::{Code, Operation};
use crate::refusal::InfoReason;

// What the codes so far leave: no offset may come above `limit`, and whether one set the frame.
#[derive(Clone, Copy)]
pub(crate) struct Progress {
    limit: u8,
    frame_set: bool,
}

impl Progress {
    // Before the first code of a prologue of this size.
    pub(crate) fn new(prologue: u8) -> Progress
        ensures { result ≡ before_codes prologue }
    {
        Progress {
            limit: prologue,
            frame_set: false,
        }
    }
}

// What holds after one more code of an info with this frame register.
pub(crate) fn admit(frame: u8, sofar: Progress, code: Code) -> Result<Progress, InfoReason>
    ensures { result_map_both (λ p. p) reason_number result ≡ admitted frame sofar code }
{
    let sets = matches!(code.operation, Operation::SetFrame);
    if sets && (sofar.frame_set || frame == 0) {
        return Err(InfoReason::BadCode);
    }
    if code.offset > sofar.limit {
        return Err(InfoReason::Disorder);
    }
    Ok(Progress {
        limit: code.offset,
        frame_set: sofar.frame_set || sets,
    })
}
