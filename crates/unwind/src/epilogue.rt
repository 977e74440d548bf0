// Whether the bytes from an address on are an epilogue, told byte by byte.
ghost use Rattle.std.specs.Prelude.{◌≡◌, ◌+◌, ◌^◌, ◌≤◌};
ghost use Rattle.std.specs.Result.{result_map_both};
ghost use Rattle.x64.specs.Decodings.{extended};
ghost use Rattle.unwind.specs.Epilogues.{pop_or_close, lea_byte, long_byte, next, actions, found};
ghost use Rattle.unwind.specs.declared.epilogue.Part.TheVariants.{First};

use layout::address::Address;
use memory::reading::{Lacking, Memory};

// What a part of an epilogue does.
#[derive(Clone, Copy, PartialEq, Eq, Debug)]
pub enum Action {
    // RSP becomes the value of a register plus a displacement, of 32 signed bits as their pattern.
    Move { register: u8, displacement: u32 },
    Pop(u8),
}

// What the bytes read so far begin.
#[derive(Clone, Copy, PartialEq, Eq, Debug)]
pub enum Part {
    // Nothing is read yet.
    First,
    // 48, or 49, of an opening.
    Low,
    High,
    // 48 83, or 48 81, of an add to RSP.
    Add { wide: bool },
    // 48 8D, or 49 8D.
    Lea,
    // An opening up to its displacement of one byte.
    Short { register: u8 },
    // An opening up to the last `left` of four bytes; those read stand uppermost in `value`.
    Long { register: u8, left: u8, value: u32 },
    // The opening, or a pop.
    Pops,
    // 41 of a pop.
    Upper,
    // F3 of the close.
    Repeat,
}

// What one more byte makes of it.
#[derive(Clone, Copy, PartialEq, Eq, Debug)]
pub enum Next {
    On(Part),
    // An opening or a pop is whole.
    Whole(Action, Part),
    // The close is whole.
    Found,
    // The byte does not fit.
    Misfit,
}

// A signed byte as 32 signed bits.
fn extend(b: u8) -> u32
    ensures { result ≡ extended b }
{
    i32::from(b.cast_signed()).cast_unsigned()
}

// A byte of a pop or a close.
fn after_opening(b: u8) -> Next
    ensures { result ≡ pop_or_close b }
{
    match b {
        0x5c => Next::Misfit,
        0x58..=0x5f => Next::Whole(Action::Pop(b - 0x58), Part::Pops),
        0x41 => Next::On(Part::Upper),
        0xc3 => Next::Found,
        0xf3 => Next::On(Part::Repeat),
        _ => Next::Misfit,
    }
}

// The byte behind 8D: it names the low three bits of the frame register and the displacement's size.
fn after_lea(frame: u8, b: u8) -> Next
    ensures { result ≡ lea_byte frame b }
{
    if b == 0x60 + frame % 8 {
        Next::On(Part::Short { register: frame })
    } else if b == 0xa0 + frame % 8 {
        Next::On(Part::Long {
            register: frame,
            left: 4,
            value: 0,
        })
    } else {
        Next::Misfit
    }
}

// A byte of a displacement of four.
fn after_long(register: u8, left: u8, value: u32, b: u8) -> Next
    ensures { result ≡ long_byte register left value b }
{
    let value = value / 256 + (u32::from(b) << 24);
    if left <= 1 {
        Next::Whole(
            Action::Move {
                register,
                displacement: value,
            },
            Part::Pops,
        )
    } else {
        Next::On(Part::Long {
            register,
            left: left - 1,
            value,
        })
    }
}

impl Part {
    // What `b` makes of it, in a function with this frame register, or 0 for none.
    pub fn next(self, frame: u8, b: u8) -> Next
        ensures { result ≡ next frame self b }
    {
        match (self, b) {
            (Part::First, 0x48) => Next::On(Part::Low),
            (Part::First, 0x49) if frame >= 8 && frame % 8 != 4 => Next::On(Part::High),
            (Part::First | Part::Pops, _) => after_opening(b),
            (Part::Low, 0x83) => Next::On(Part::Add { wide: false }),
            (Part::Low, 0x81) => Next::On(Part::Add { wide: true }),
            (Part::Low, 0x8d) if 0 < frame && frame < 8 && frame != 4 => Next::On(Part::Lea),
            (Part::High, 0x8d) => Next::On(Part::Lea),
            (Part::Add { wide: false }, 0xc4) => Next::On(Part::Short { register: 4 }),
            (Part::Add { wide: true }, 0xc4) => Next::On(Part::Long {
                register: 4,
                left: 4,
                value: 0,
            }),
            (Part::Lea, _) => after_lea(frame, b),
            (Part::Short { register }, _) => Next::Whole(
                Action::Move {
                    register,
                    displacement: extend(b),
                },
                Part::Pops,
            ),
            (
                Part::Long {
                    register,
                    left,
                    value,
                },
                _,
            ) => after_long(register, left, value, b),
            (Part::Upper, 0x58..=0x5f) => Next::Whole(Action::Pop(b - 0x50), Part::Pops),
            (Part::Repeat, 0xc3) => Next::Found,
            _ => Next::Misfit,
        }
    }
}

// Whether an epilogue begins at `start`, in an entry that goes on for `left` bytes from there. A byte is read only while those
// before it begin one.
pub fn is_epilogue<M: Memory>(
    m: &mut M,
    frame: u8,
    start: Address,
    left: u32,
) -> Result<bool, Lacking>
    requires { start.0 + left ≤ 2 ^ 64 }
    ensures answer { result_map_both (λ b. b) (λ e. e.at.0) result ≡ found (actions frame First start.0 left (M.shows m.old)) }
    ensures same { M.shows m.new ≡ M.shows m.old }
{
    let mut part = Part::First;
    for i in 0..u64::from(left) {
        let b = m.read(Address(start.0 + i))?;
        match part.next(frame, b) {
            Next::On(p) => part = p,
            Next::Whole(_, p) => part = p,
            Next::Found => return Ok(true),
            Next::Misfit => return Ok(false),
        }
    }
    Ok(false)
}
