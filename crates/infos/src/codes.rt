// An info's codes, one by one.
ghost use Rattle.std.specs.Prelude.{◌≡◌, ◌+◌, ◌*◌, ◌/◌, ◌<◌, ◌≤◌, length, IfOk};
ghost use Rattle.std.specs.Iterator.{YieldsFirstBy, item_count};
ghost use Rattle.std.specs.Result.{result_map_both};
ghost use Rattle.infos.specs.Refusals.{info_fault, told};
ghost use Rattle.infos.specs.Sequences.{before_codes, taken, counted, gathered};

use crate::code::{Code, decode};
use crate::refusal::InfoRefusal;
use crate::sequence::{Progress, admit};

// The codes that slots hold, in array order, each good by those before it; after a refusal nothing comes.
#[derive(Clone, Copy)]
pub struct Codes<'a> {
    // All slots, and the number of the first that is left.
    slots: &'a [u8],
    slot: usize,
    frame: u8,
    sofar: Progress,
    ghost few: { (length slots.now ≤ 510) × (2 * slot ≤ length slots.now) },
}

impl<'a> Codes<'a> {
    ghost use Rattle.infos.specs.Codings.{slots_left, codes_left};

    // The codes of an info with these slots, a prologue of that size and that frame register.
    pub(crate) fn new(slots: &'a [u8], prologue: u8, frame: u8) -> Codes<'a>
        requires { length slots.now ≤ 510 }
        ensures slots { result.slots.now ≡ slots.now }
        ensures slot { result.slot ≡ 0 }
        ensures frame { result.frame ≡ frame }
        ensures sofar { result.sofar ≡ before_codes prologue }
    {
        Codes {
            slots,
            slot: 0,
            frame,
            sofar: Progress::new(prologue),
        }
    }

    // The code at the first slot that is left, how many slots it takes, and what holds after it.
    fn first(&self) -> Result<((Code, usize), Progress), InfoRefusal>
        requires { self.now.slot < length self.now.slots.now / 2 }
        ensures value { result_map_both (λ p. p) info_fault result ≡ taken self.now.frame self.now.sofar self.now.slot (slots_left self.now) }
        ensures within { IfOk result (λ p. (1 ≤ p.0.1) × (2 * (self.now.slot + p.0.1) ≤ length self.now.slots.now)) }
    {
        let slot = self.slot as u16;
        let (code, used) = decode(self.slots, self.slot).map_err(|reason| reason.at(slot))?;
        let sofar = admit(self.frame, self.sofar, code).map_err(|reason| reason.at(slot))?;
        Ok(((code, used), sofar))
    }

    // How many codes there are, if all are good. By a loop, which `?` ends at the first that is refused.
    pub fn check(self) -> Result<usize, InfoRefusal>
        ensures { told result ≡ counted (gathered (codes_left self.entry)) }
    {
        let mut n = 0;
        for code in self {
            code?;
            n += 1;
        }
        Ok(n)
    }
}

impl Iterator for Codes<'_> {
    ghost use Rattle.infos.specs.Codings.{codes_left};

    type Item = Result<Code, InfoRefusal>;

    ghost next_gives = { YieldsFirstBy told codes_left };

    ghost remaining = { item_count codes_left };

    fn next(&mut self) -> Option<Result<Code, InfoRefusal>> {
        let end = self.slots.len() / 2;
        if self.slot >= end {
            return None;
        }
        match self.first() {
            Ok(((code, used), sofar)) => {
                self.slot += used;
                self.sofar = sofar;
                Some(Ok(code))
            }
            Err(e) => {
                self.slot = end;
                Some(Err(e))
            }
        }
    }
}
