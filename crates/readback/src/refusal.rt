// Why the steps of a module are not read back.
ghost use Rattle.std.specs.Prelude.{◌≡◌};
ghost use Rattle.readback.specs.Refusals.{read_number};
ghost use Rattle.readback.specs.declared.refusal.ReadRefusal.TheVariants.{BadModule, BadInfo};

use infos::refusal::InfoRefusal;
use layout::refusal::Numbered;
use tables::refusal::TableRefusal;

#[derive(Clone, Copy, PartialEq, Eq, Debug)]
pub enum ReadRefusal {
    // 35 or 36: the entries are no table, or the module does not fit at its base.
    BadModule(TableRefusal),
    // 40 to 45: an info that is none.
    BadInfo(InfoRefusal),
    // 42: an info with a handler or a chained entry, which is no step.
    Flags,
    // 43: the code at this slot saves an XMM register, which is no step.
    SavesXmm(u16),
    // 22: fewer records than functions or steps.
    TooFewRecords,
}

impl Numbered for ReadRefusal {
    ghost number = { read_number };

    // By a match: where a case holds a value, no case can have a number of its own.
    fn number(&self) -> u16 {
        match self {
            ReadRefusal::BadModule(e) => e.number(),
            ReadRefusal::BadInfo(e) => e.number(),
            ReadRefusal::Flags => 42,
            ReadRefusal::SavesXmm(_) => 43,
            ReadRefusal::TooFewRecords => 22,
        }
    }
}

// By hand, since clauses name the error that `?` makes, and a derived `From` has no contract.
impl From<TableRefusal> for ReadRefusal {
    ghost from_gives = { λ e r. r ≡ BadModule e };

    fn from(e: TableRefusal) -> ReadRefusal {
        ReadRefusal::BadModule(e)
    }
}

// By hand, as the one above.
impl From<InfoRefusal> for ReadRefusal {
    ghost from_gives = { λ e r. r ≡ BadInfo e };

    fn from(e: InfoRefusal) -> ReadRefusal {
        ReadRefusal::BadInfo(e)
    }
}
