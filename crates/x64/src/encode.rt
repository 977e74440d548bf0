// The bytes of an instruction, in the shortest form.
ghost use Rattle.std.specs.Prelude.{◌≡◌, ◌+◌, ◌<◌, ◌≤◌, not, ◌++◌, length, if◌then◌else◌, Some, None, nat_le};
ghost use Rattle.layout.specs.Words.{overwritten};
ghost use Rattle.layout.specs.Cursors.{HasRoom, wrote};
ghost use Rattle.x64.specs.Encodings.{short, high, spelled, mode, encode, one_register, on_rsp, at_rsp, at_frame};
ghost use Rattle.x64.specs.Laws.{EncodesApart};

use crate::instruction::Instruction;
use layout::cursor::Cursor;

// Whether a displacement goes into one byte.
fn is_short(d: u32) -> bool
    ensures { result ≡ short d }
{
    i8::try_from(d.cast_signed()).is_ok()
}

fn upper(r: u8) -> u8
    ensures { result ≡ high r }
{
    u8::from(r >= 8)
}

// The mode that says how wide a displacement is.
fn mode(wide: bool) -> u8
    ensures { result ≡ mode wide }
{
    if wide { 2 } else { 1 }
}

// push or pop: the operation with the register, after 41 for the upper registers
fn emit_register(out: &mut Cursor, op: u8, r: u8)
    requires low { op < 240 }
    requires room { HasRoom out.old (one_register op r) }
    ensures { out.new ≡ wrote out.old (one_register op r) }
{
    if r < 8 {
        out.put(&[op + r % 8])
    } else {
        out.put(&[0x41, op + r % 8])
    }
}

// The head of a form, and after it a displacement in four bytes or in one.
fn emit_form(out: &mut Cursor, head: &[u8], wide: bool, d: u32)
    requires { HasRoom out.old (head.now ++ spelled wide d) }
    ensures { out.new ≡ wrote out.old (head.now ++ spelled wide d) }
{
    out.put(head);
    let size = if wide { 4 } else { 1 };
    out.put(&d.to_le_bytes()[..size])
}

// add or sub RSP
fn emit_on_rsp(out: &mut Cursor, op: u8, d: u32)
    requires { HasRoom out.old (on_rsp op (not (short d)) d) }
    ensures { out.new ≡ wrote out.old (on_rsp op (not (short d)) d) }
{
    let wide = !is_short(d);
    let opcode = if wide { 0x81 } else { 0x83 };
    emit_form(out, &[0x48, opcode, op], wide, d)
}

// store, load or lea at RSP
fn emit_at_rsp(out: &mut Cursor, op: u8, r: u8, d: u32)
    requires { HasRoom out.old (at_rsp op (not (short d)) r d) }
    ensures { out.new ≡ wrote out.old (at_rsp op (not (short d)) r d) }
{
    let wide = !is_short(d);
    let rex = 0x48 + 4 * upper(r);
    let m = 64 * mode(wide) + 8 * (r % 8) + 4;
    emit_form(out, &[rex, op, m, 0x24], wide, d)
}

// store, load or lea at a frame register
fn emit_at_frame(out: &mut Cursor, op: u8, r: u8, f: u8, d: u32)
    requires { HasRoom out.old (at_frame op (not (short d)) r f d) }
    ensures { out.new ≡ wrote out.old (at_frame op (not (short d)) r f d) }
{
    let wide = !is_short(d);
    let rex = 0x48 + 4 * upper(r) + upper(f);
    let m = 64 * mode(wide) + 8 * (r % 8) + f % 8;
    emit_form(out, &[rex, op, m], wide, d)
}

// Writes an instruction, for which there is room.
pub fn emit(out: &mut Cursor, i: Instruction)
    requires { HasRoom out.old (encode i) }
    ensures { out.new ≡ wrote out.old (encode i) }
{
    match i {
        Instruction::Push(r) => emit_register(out, 0x50, r),
        Instruction::Pop(r) => emit_register(out, 0x58, r),
        Instruction::SubRsp(d) => emit_on_rsp(out, 0xec, d),
        Instruction::AddRsp(d) => emit_on_rsp(out, 0xc4, d),
        Instruction::StoreAtRsp {
            register,
            displacement,
        } => emit_at_rsp(out, 0x89, register, displacement),
        Instruction::LoadAtRsp {
            register,
            displacement,
        } => emit_at_rsp(out, 0x8b, register, displacement),
        Instruction::LeaAtRsp {
            register,
            displacement,
        } => emit_at_rsp(out, 0x8d, register, displacement),
        Instruction::StoreAtFrame {
            register,
            frame,
            displacement,
        } => emit_at_frame(out, 0x89, register, frame, displacement),
        Instruction::LoadAtFrame {
            register,
            frame,
            displacement,
        } => emit_at_frame(out, 0x8b, register, frame, displacement),
        Instruction::LeaRspAtFrame {
            frame,
            displacement,
        } => emit_at_frame(out, 0x8d, 4, frame, displacement),
        Instruction::Set { register, value } => {
            let head = [0x48 + upper(register), 0xc7, 192 + register % 8];
            emit_form(out, &head, true, value)
        }
        Instruction::Nop => out.put(&[0x90]),
        Instruction::Call(d) => emit_form(out, &[0xe8], true, d),
        Instruction::Ret => out.put(&[0xc3]),
    }
}

// How many bytes an instruction has.
pub fn encoded_length(i: Instruction) -> usize
    ensures length { result ≡ length (encode i) }
    ensures bound { result ≤ 8 }
{
    match i {
        Instruction::Push(r) | Instruction::Pop(r) => 1 + usize::from(upper(r)),
        Instruction::SubRsp(d)
        | Instruction::AddRsp(d)
        | Instruction::StoreAtFrame {
            displacement: d,
            ..
        }
        | Instruction::LoadAtFrame {
            displacement: d,
            ..
        }
        | Instruction::LeaRspAtFrame {
            displacement: d,
            ..
        } => { if is_short(d) { 4 } else { 7 } }
        Instruction::StoreAtRsp {
            displacement: d,
            ..
        }
        | Instruction::LoadAtRsp {
            displacement: d,
            ..
        }
        | Instruction::LeaAtRsp {
            displacement: d,
            ..
        } => { if is_short(d) { 5 } else { 8 } }
        Instruction::Set { .. } => 7,
        Instruction::Nop | Instruction::Ret => 1,
        Instruction::Call(_) => 5,
    }
}

// Writes an instruction over the first bytes, and answers its length; where it does not fit, it changes nothing.
// No other instruction has the same bytes in one form.
pub fn write_instruction(i: Instruction, out: &mut [u8]) -> Option<usize>
    ensures answer { result ≡ (if nat_le (length (encode i)) (length out.old) then Some (length (encode i)) else None) }
    ensures after { out.new ≡ (if nat_le (length (encode i)) (length out.old) then overwritten out.old 0 (encode i) else out.old) }
    ensures apart { EncodesApart }
{
    if out.len() < encoded_length(i) {
        return None;
    }
    let mut room = Cursor::new(out);
    emit(&mut room, i);
    Some(room.at)
}
