// The infos that an info is chained to, undone.
ghost use Rattle.std.specs.Prelude.{◌≡◌, ◌≤◌, true, length, is_ok, IfOk};
ghost use Rattle.infos.specs.Codings.{codes_left};
ghost use Rattle.infos.specs.Listings.{listed};
ghost use Rattle.infos.specs.Sequences.{gathered};
ghost use Rattle.unwind.specs.Codes.{codes_undone};
ghost use Rattle.unwind.specs.Undoing.{returned};
ghost use Rattle.std.specs.Result.{result_map_both};
ghost use Rattle.infos.specs.Infos.{viewed, tail_view};
ghost use Rattle.unwind.specs.Chains.{undo_fault, at_code, at_info, info_of, after_links, link, saves_of, followed, chain_undone};

use crate::code::{Saves, undo_codes};
use crate::undo::pop_rip;
use infos::codes::Codes;
use infos::info::{Info, Tail};
use infos::reading::read_info;
use infos::refusal::InfoReason;
use layout::address::Rva;
use layout::registers::Registers;
use memory::item::ItemFault;
use memory::reading::Memory;
use tables::area::InfoArea;
use tables::entry::Entry;

// What ends the undoing of a frame.
#[derive(Clone, Copy, PartialEq, Eq, Debug)]
pub enum Cause {
    // 30 or 50.
    Unread(ItemFault),
    // 40 to 45, in the info at an RVA.
    BadInfo(InfoReason, Rva),
    // 46: this one would be the 33rd.
    TooManyLinks(Rva),
}

// The cause, with the first slot of the code at work, or none outside codes, and how many links were followed.
#[derive(Clone, Copy, PartialEq, Eq, Debug)]
pub struct UndoFault {
    pub cause: Cause,
    pub slot: Option<u16>,
    pub links: u8,
}

// At most this many links are followed in a frame.
const MAX_LINKS: u8 = 32;

// Reads the info at an RVA whole, after so many links.
pub(crate) fn info_at<'a>(area: InfoArea<'a>, at: Rva, links: u8) -> Result<Info<'a>, UndoFault>
    ensures value { result_map_both viewed undo_fault result ≡ at_info links at.0 (info_of area.entry at.0) }
    ensures few { IfOk result (λ i. length i.slots.now ≤ 510) }
{
    read_info(area, at).map_err(|e| UndoFault {
        cause: Cause::BadInfo(e.reason, at),
        slot: e.slot,
        links,
    })
}

// Pops RIP after so many links.
fn return_after<M: Memory>(
    m: &mut M,
    registers: Registers,
    links: u8,
) -> Result<Registers, UndoFault>
    ensures answer { result_map_both (λ x. x) undo_fault result ≡ after_links links (returned (M.shows m.old) registers) }
    ensures same { M.shows m.new ≡ M.shows m.old }
{
    pop_rip(m, registers).map_err(|e| UndoFault {
        cause: Cause::Unread(e),
        slot: None,
        links,
    })
}

// Undoes codes up to an offset after so many links.
pub(crate) fn codes_after<M: Memory>(
    m: &mut M,
    saves: Saves,
    codes: Codes<'_>,
    limit: u32,
    registers: Registers,
    links: u8,
) -> Result<Registers, UndoFault>
    requires { is_ok (gathered (codes_left codes)) ≡ true }
    ensures answer { result_map_both (λ x. x) undo_fault result ≡ at_code links (codes_undone (M.shows m.old) saves limit (listed (gathered (codes_left codes.entry))) registers) }
    ensures same { M.shows m.new ≡ M.shows m.old }
{
    undo_codes(m, saves, codes, limit, registers).map_err(|e| UndoFault {
        cause: Cause::Unread(e.fault),
        slot: Some(e.slot),
        links,
    })
}

// What codes of an info are undone by, over the base of the frame.
pub(crate) fn saves_of(info: &Info<'_>, base: u64) -> Saves
    ensures { result ≡ saves_of (viewed info.now) base }
{
    Saves {
        base,
        frame: info.frame_register,
        offset: info.frame_offset,
    }
}

// Undoes the info that a link names whole, over the base of the frame, and answers its tail too.
fn follow<'a, M: Memory>(
    m: &mut M,
    area: InfoArea<'a>,
    base: u64,
    next: Entry,
    registers: Registers,
    links: u8,
) -> Result<(Tail<'a>, Registers), UndoFault>
    ensures answer { result_map_both (λ p. (tail_view p.0, p.1)) undo_fault result ≡ followed (M.shows m.old) area.entry base links next registers }
    ensures same { M.shows m.new ≡ M.shows m.old }
{
    let info = info_at(area, next.info, links)?;
    let undone = codes_after(
        m,
        saves_of(&info, base),
        info.codes(),
        u32::MAX,
        registers,
        links,
    )?;
    Ok((info.tail, undone))
}

// The entry that a tail is chained to.
fn link(tail: Tail<'_>) -> Option<Entry>
    ensures { result ≡ link (tail_view tail.entry) }
{
    match tail {
        Tail::Chained(next) => Some(next),
        Tail::None | Tail::Handler { .. } => None,
    }
}

// Undoes the infos that a tail is chained to, with the same base, and pops RIP.
pub(crate) fn undo_chain<'a, M: Memory>(
    m: &mut M,
    area: InfoArea<'a>,
    base: u64,
    mut tail: Tail<'a>,
    mut registers: Registers,
) -> Result<Registers, UndoFault>
    ensures answer { result_map_both (λ x. x) undo_fault result ≡ chain_undone (M.shows m.old) area.entry base 32 0 (tail_view tail.entry) registers }
    ensures same { M.shows m.new ≡ M.shows m.old }
{
    for links in 0..MAX_LINKS {
        let Some(next) = link(tail) else {
            return return_after(m, registers, links);
        };
        let followed = follow(m, area, base, next, registers, links + 1)?;
        tail = followed.0;
        registers = followed.1;
    }
    match link(tail) {
        Some(next) => Err(UndoFault {
            cause: Cause::TooManyLinks(next.info),
            slot: None,
            links: MAX_LINKS,
        }),
        None => return_after(m, registers, MAX_LINKS),
    }
}
