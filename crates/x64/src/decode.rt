// The instruction that bytes begin with, in either displacement size.
ghost use Rattle.std.specs.Prelude.{◌≡◌, Option, ℕ, ◌<◌, ◌≤◌, Bool, true, List, ◌++◌, length, Some};
ghost use Rattle.x64.specs.Decodings.{displaced, push_or_pop, plain, rsp_form, set_form, at_rsp_form, at_frame_form, memory_in, set_in, rexed, formed, extended, decoded};
ghost use Rattle.x64.specs.Encodings.{encode_as, well_formed};
ghost use Rattle.x64.specs.Laws.{Form};
ghost use Rattle.x64.specs.declared.instruction.Instruction.{Instruction};

use crate::instruction::Instruction;
use layout::word::word_at;

// A signed byte as 32 signed bits.
fn extend(b: u8) -> u32
    ensures { result ≡ extended b }
{
    i32::from(b.cast_signed()).cast_unsigned()
}

// The displacement at `at`, of four bytes or one, and where it ends.
fn displacement_at(wide: bool, bytes: &[u8], at: usize) -> Option<(u32, usize)>
    requires { at < 8 }
    ensures { result ≡ displaced wide bytes.now at }
{
    if wide {
        Some((word_at(bytes, at)?, at + 4))
    } else {
        Some((extend(*bytes.get(at)?), at + 1))
    }
}

// The instruction that `form` makes of the displacement at `at`, and where it ends.
fn with_displacement<F: FnOnce(u32) -> Option<Instruction>>(
    wide: bool,
    bytes: &[u8],
    at: usize,
    form: F,
) -> Option<(Instruction, usize)>
    requires place { at < 8 }
    requires form { F.IsAlwaysCallable form }
    ensures { (f : ℕ → Option Instruction) → ((d : ℕ) (i : Option Instruction) → F.post form d i → i ≡ f d) → result ≡ formed (displaced wide bytes.now at) f }
{
    let (d, end) = displacement_at(wide, bytes, at)?;
    Some((form(d)?, end))
}

// Push or pop of one of eight registers, of which the first has the number `first`.
fn push_or_pop(b: u8, first: u8) -> Option<Instruction>
    requires { first ≤ 8 }
    ensures { result ≡ push_or_pop first b }
{
    match b {
        0x50..=0x57 => Some(Instruction::Push(first + (b - 0x50))),
        0x58..=0x5f => Some(Instruction::Pop(first + (b - 0x58))),
        _ => None,
    }
}

fn plain_form(b: u8) -> Option<Instruction>
    ensures { result ≡ plain b }
{
    match b {
        0x90 => Some(Instruction::Nop),
        0xc3 => Some(Instruction::Ret),
        0x54 | 0x5c => None,
        _ => push_or_pop(b, 0),
    }
}

fn form_on_rsp(group: u8, d: u32) -> Option<Instruction>
    ensures { result ≡ rsp_form group d }
{
    match group {
        0xec => Some(Instruction::SubRsp(d)),
        0xc4 => Some(Instruction::AddRsp(d)),
        _ => None,
    }
}

// Apart from the next function: at RSP, register 4 has no form; at a frame register it has the lea alone, which no other has.
fn form_at_rsp(op: u8, register: u8, displacement: u32) -> Option<Instruction>
    ensures { result ≡ at_rsp_form op register displacement }
{
    if register == 4 {
        return None;
    }
    match op {
        0x89 => Some(Instruction::StoreAtRsp {
            register,
            displacement,
        }),
        0x8b => Some(Instruction::LoadAtRsp {
            register,
            displacement,
        }),
        0x8d => Some(Instruction::LeaAtRsp {
            register,
            displacement,
        }),
        _ => None,
    }
}

fn form_at_frame(op: u8, register: u8, frame: u8, displacement: u32) -> Option<Instruction>
    ensures { result ≡ at_frame_form op register frame displacement }
{
    if register == 4 {
        return (op == 0x8d).then_some(Instruction::LeaRspAtFrame {
            frame,
            displacement,
        });
    }
    match op {
        0x89 => Some(Instruction::StoreAtFrame {
            register,
            frame,
            displacement,
        }),
        0x8b => Some(Instruction::LoadAtFrame {
            register,
            frame,
            displacement,
        }),
        _ => None,
    }
}

fn form_set(register: u8, value: u32) -> Option<Instruction>
    ensures { result ≡ set_form register value }
{
    (register != 4).then_some(Instruction::Set { register, value })
}

// An access at RSP or at a frame register.
fn decode_memory(rex: u8, op: u8, bytes: &[u8]) -> Option<(Instruction, usize)>
    requires { rex < 8 }
    ensures { result ≡ memory_in rex op bytes.now }
{
    let m = *bytes.get(2)?;
    let register = m / 8 % 8 + 8 * (rex / 4);
    if m / 64 != 1 && m / 64 != 2 {
        return None;
    }
    let wide = m / 64 == 2;
    if m % 8 != 4 {
        let frame = m % 8 + 8 * (rex % 2);
        return with_displacement(wide, bytes, 3, |d| form_at_frame(op, register, frame, d));
    }
    if rex % 2 != 0 || *bytes.get(3)? != 0x24 {
        return None;
    }
    with_displacement(wide, bytes, 4, |d| form_at_rsp(op, register, d))
}

fn decode_set(rex: u8, bytes: &[u8]) -> Option<(Instruction, usize)>
    requires { rex < 8 }
    ensures { result ≡ set_in rex bytes.now }
{
    let m = *bytes.get(2)?;
    if m < 192 || m >= 200 || rex >= 2 {
        return None;
    }
    let register = m - 192 + 8 * rex;
    with_displacement(true, bytes, 3, |d| form_set(register, d))
}

// After 48 to 4F, of which `rex` is the low three bits.
fn decode_rex(rex: u8, bytes: &[u8]) -> Option<(Instruction, usize)>
    requires { rex < 8 }
    ensures { result ≡ rexed rex bytes.now }
{
    if rex / 2 % 2 != 0 {
        return None;
    }
    match *bytes.get(1)? {
        op @ (0x81 | 0x83) => {
            if rex != 0 {
                return None;
            }
            let group = *bytes.get(2)?;
            with_displacement(op == 0x81, bytes, 3, |d| form_on_rsp(group, d))
        }
        0xc7 => decode_set(rex, bytes),
        op => decode_memory(rex, op, bytes),
    }
}

// The instruction that `bytes` begin with, and how many bytes it has; none where they begin no instruction,
// or are cut off before its end. What was encoded in a form that it has decodes to itself, whatever follows.
pub fn decode(bytes: &[u8]) -> Option<(Instruction, usize)>
    ensures value { result ≡ decoded bytes.now }
    ensures back { (i : Instruction) (wide : Bool) (rest : List ℕ) → well_formed i ≡ true → Form wide i → bytes.now ≡ encode_as wide i ++ rest → result ≡ Some (i, length (encode_as wide i)) }
{
    match *bytes.first()? {
        0xe8 => with_displacement(true, bytes, 1, |d| Some(Instruction::Call(d))),
        0x41 => push_or_pop(*bytes.get(1)?, 8).map(|i| (i, 2)),
        b @ 0x48..=0x4f => decode_rex(b - 0x48, bytes),
        b => plain_form(b).map(|i| (i, 1)),
    }
}
