// Code for people: each instruction with its RVA, its bytes, and its text as a disassembler writes it.
use crate::names::integer_name;
use std::{fmt, io};
use tables::entry::Entry;
use x64::decode::decode;
use x64::instruction::Instruction;

// An instruction, and the RVA where it ends.
#[derive(Clone, Copy)]
struct Text {
    instruction: Instruction,
    end: u64,
}

// An access at a register plus a displacement.
#[derive(Clone, Copy)]
struct Place {
    base: &'static str,
    displacement: u32,
}

impl fmt::Display for Place {
    fn fmt<W: fmt::Write>(&self, f: &mut fmt::Formatter<W>) -> fmt::Result {
        let base = self.base;
        let n = self.displacement.cast_signed();
        let size = n.unsigned_abs();
        match n {
            0 => write!(f, "[{base}]"),
            1.. => write!(f, "[{base} + {size}]"),
            _ => write!(f, "[{base} - {size}]"),
        }
    }
}

fn at_rsp(displacement: u32) -> Place {
    Place {
        base: "RSP",
        displacement,
    }
}

fn at_frame(frame: u8, displacement: u32) -> Place {
    Place {
        base: integer_name(frame),
        displacement,
    }
}

impl fmt::Display for Text {
    fn fmt<W: fmt::Write>(&self, f: &mut fmt::Formatter<W>) -> fmt::Result {
        match self.instruction {
            Instruction::Push(r) => write!(f, "push {}", integer_name(r)),
            Instruction::Pop(r) => write!(f, "pop {}", integer_name(r)),
            Instruction::SubRsp(d) => write!(f, "sub RSP, {}", d.cast_signed()),
            Instruction::AddRsp(d) => write!(f, "add RSP, {}", d.cast_signed()),
            Instruction::StoreAtRsp {
                register,
                displacement,
            } => write!(
                f,
                "mov {}, {}",
                at_rsp(displacement),
                integer_name(register)
            ),
            Instruction::LoadAtRsp {
                register,
                displacement,
            } => write!(
                f,
                "mov {}, {}",
                integer_name(register),
                at_rsp(displacement)
            ),
            Instruction::LeaAtRsp {
                register,
                displacement,
            } => write!(
                f,
                "lea {}, {}",
                integer_name(register),
                at_rsp(displacement)
            ),
            Instruction::StoreAtFrame {
                register,
                frame,
                displacement,
            } => write!(
                f,
                "mov {}, {}",
                at_frame(frame, displacement),
                integer_name(register)
            ),
            Instruction::LoadAtFrame {
                register,
                frame,
                displacement,
            } => write!(
                f,
                "mov {}, {}",
                integer_name(register),
                at_frame(frame, displacement)
            ),
            Instruction::LeaRspAtFrame {
                frame,
                displacement,
            } => write!(f, "lea RSP, {}", at_frame(frame, displacement)),
            Instruction::Set { register, value } => {
                write!(f, "mov {}, {}", integer_name(register), value.cast_signed())
            }
            Instruction::Nop => write!(f, "nop"),
            Instruction::Call(d) => write!(
                f,
                "call {:#x}",
                self.end.wrapping_add_signed(i64::from(d.cast_signed()))
            ),
            Instruction::Ret => write!(f, "ret"),
        }
    }
}

// The bytes of an instruction, in a column as wide as the longest one.
fn show_bytes(rt: &impl Print, bytes: &[u8]) -> io::Result<()> {
    for b in bytes {
        print!(rt; " {b:02x}")?;
    }
    for _ in bytes.len()..8 {
        print!(rt; "   ")?;
    }
    Ok(())
}

// The instructions of `code`, whose first byte has this RVA, up to the first byte that begins none.
fn show_code(rt: &impl Print, code: &[u8], rva: u32) -> io::Result<()> {
    let mut rest = code;
    let mut at = u64::from(rva);
    for _ in 0..code.len() {
        let Some((instruction, size)) = decode(rest) else {
            break;
        };
        let end = at.wrapping_add(size as u64);
        print!(rt; "  {at:#x}:")?;
        show_bytes(rt, rest.get(..size).unwrap_or(rest))?;
        println!(rt; "  {}", Text { instruction, end })?;
        rest = rest.get(size..).unwrap_or(&[]);
        at = end;
    }
    Ok(())
}

// The functions of a module by name, each with its code; `code` begins with the first of them.
pub fn show_listing(
    rt: &impl Print,
    names: &[&str],
    entries: &[Entry],
    code: &[u8],
) -> io::Result<()> {
    let first = entries.first().map_or(0, |e| e.begin.0);
    for (name, entry) in names.iter().zip(entries) {
        let begin = entry.begin.0;
        let end = entry.end.0;
        println!(rt; "{name}, {begin:#x} to {end:#x}:")?;
        let from = begin.wrapping_sub(first) as usize;
        let to = end.wrapping_sub(first) as usize;
        show_code(rt, code.get(from..to).unwrap_or(&[]), begin)?;
    }
    Ok(())
}
