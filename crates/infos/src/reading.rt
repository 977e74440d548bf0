// Reading the unwind info at an RVA.
ghost use Rattle.std.specs.Prelude.{◌≡◌, ◌+◌, ◌*◌, ◌^◌, ◌≤◌, length, IfOk};
ghost use Rattle.infos.specs.Infos.{padded, tail_size, tail_in, tail_view, header_in, header_view, located_in, info_in, info_view};

use crate::info::{Info, Tail};
use crate::refusal::{InfoReason, InfoRefusal};
use layout::address::Rva;
use layout::word::le_at;
use tables::area::InfoArea;
use tables::entry::entry_in;

// The slots are padded to an even count.
fn padded_count(count: u8) -> usize
    ensures { result ≡ padded count }
{
    usize::from(count).next_multiple_of(2)
}

// How many bytes the tail has at least. Here and in `read_tail` the flags are the number that the format gives: an enum would
// be made by one more match.
fn least_tail(flags: u8) -> usize
    ensures { result ≡ tail_size flags }
{
    match flags {
        0 => 0,
        4 => 12,
        _ => 4,
    }
}

// The tail that `bytes` begin with.
fn read_tail(flags: u8, bytes: &[u8]) -> Tail<'_>
    requires { tail_size flags ≤ length bytes.now }
    ensures { tail_view result ≡ tail_in flags bytes.now }
{
    match flags {
        0 => Tail::None,
        4 => Tail::Chained(entry_in(bytes, 0)),
        _ => Tail::Handler {
            rva: Rva(le_at(bytes, 0)),
            data: &bytes[4..],
        },
    }
}

// The info that `bytes` begin with, which stand at `at` in the area; its codes are not looked at.
fn read_header(bytes: &[u8], at: usize) -> Result<Info<'_>, InfoReason>
    requires { (4 ≤ length bytes.now) × (at + 4 ≤ 2 ^ 33) }
    ensures value { header_view result ≡ header_in at bytes.now }
    ensures few { IfOk result (λ i. length i.slots.now ≤ 510) }
{
    let first = bytes[0];
    let count = bytes[2];
    let frame_register = bytes[3] % 16;
    if first % 8 != 1 {
        return Err(InfoReason::Version);
    }
    let flags = first / 8;
    if flags > 4 {
        return Err(InfoReason::Flags);
    }
    let end = 4 + 2 * padded_count(count);
    if bytes.len() < end + least_tail(flags) {
        return Err(InfoReason::Cut);
    }
    if frame_register == 4 {
        return Err(InfoReason::BadCode);
    }
    Ok(Info {
        flags,
        prologue: bytes[1],
        count,
        frame_register,
        frame_offset: bytes[3] / 16 * 16,
        place: at + 4,
        slots: &bytes[4..4 + 2 * count as usize],
        tail: read_tail(flags, &bytes[end..]),
    })
}

// The info at an RVA of an area; its codes are not looked at.
fn locate(area: InfoArea<'_>, rva: Rva) -> Result<Info<'_>, InfoReason>
    ensures value { header_view result ≡ located_in area.entry rva }
    ensures few { IfOk result (λ i. length i.slots.now ≤ 510) }
{
    if rva.0 % 4 != 0 {
        return Err(InfoReason::Cut);
    }
    let at = rva.0.checked_sub(area.start.0).ok_or(InfoReason::Cut)? as usize;
    let bytes = area.bytes.get(at..).ok_or(InfoReason::Cut)?;
    if bytes.len() < 4 {
        return Err(InfoReason::Cut);
    }
    read_header(bytes, at)
}

// The info at an RVA, read whole: header, tail and every code. Refused with 40 to 45 and the slot at work.
pub fn read_info(area: InfoArea<'_>, rva: Rva) -> Result<Info<'_>, InfoRefusal>
    ensures value { info_view result ≡ info_in area.entry rva }
    ensures few { IfOk result (λ i. length i.slots.now ≤ 510) }
{
    let info = locate(area, rva)?;
    info.codes().check()?;
    Ok(info)
}
