// Unwind codes, decoded one by one.
ghost use Rattle.std.specs.Prelude.{◌≡◌, ◌+◌, ◌*◌, ◌^◌, ◌<◌, ◌≤◌, length, IfOk, MatchResult};
ghost use Rattle.std.specs.Result.{result_map_both};
ghost use Rattle.layout.specs.Words.{le_at};
ghost use Rattle.infos.specs.Codes.{width, meant, decoded_in, code_at};
ghost use Rattle.infos.specs.Refusals.{reason_number};

use crate::refusal::InfoReason;
use layout::word::le_at;

// What an instruction of the prologue did. Registers are by number, offsets in bytes from the base of saves.
#[derive(Clone, Copy, PartialEq, Eq, Debug)]
pub enum Operation {
    Push(u8),
    Allocate(u32),
    SetFrame,
    Save { register: u8, offset: u32 },
    SaveXmm { register: u8, offset: u32 },
}

// An operation with its first slot, and the prologue offset of its instruction's end.
#[derive(Clone, Copy, PartialEq, Eq, Debug)]
pub struct Code {
    pub slot: usize,
    pub offset: u8,
    pub operation: Operation,
}

// How many slots a code takes, by its operation and its info. Here and in `meaning` an operation is the number that the format
// gives: an enum would be made by one more match.
fn slots_of(op: u8, info: u8) -> Result<usize, InfoReason>
    ensures value { result_map_both (λ n. n) reason_number result ≡ width op info }
    ensures some { IfOk result (λ n. 1 ≤ n) }
{
    match op {
        0 if info != 4 => Ok(1),
        1 if info == 0 => Ok(2),
        1 if info == 1 => Ok(3),
        2 | 3 => Ok(1),
        4 if info != 4 => Ok(2),
        5 if info != 4 => Ok(3),
        8 => Ok(2),
        9 => Ok(3),
        _ => Err(InfoReason::BadCode),
    }
}

// The 16 bits past a code's first slot.
fn short_at(bytes: &[u8]) -> u32
    requires { 4 ≤ length bytes.now }
    ensures value { result ≡ le_at 2 bytes.now 2 }
    ensures bound { result < 2 ^ 16 }
{
    let short: u16 = le_at(bytes, 2);
    u32::from(short)
}

// What a code does, by its operation, its info and its slots.
fn meaning(op: u8, info: u8, bytes: &[u8]) -> Operation
    requires { MatchResult (width op info) (λ n. 2 * n ≤ length bytes.now) (λ _. ⊥) }
    ensures { result ≡ meant op info bytes.now }
{
    match op {
        0 => Operation::Push(info),
        1 if info == 0 => Operation::Allocate(8 * short_at(bytes)),
        1 => Operation::Allocate(le_at(bytes, 2)),
        2 => Operation::Allocate(8 * info as u32 + 8),
        3 => Operation::SetFrame,
        4 => Operation::Save {
            register: info,
            offset: 8 * short_at(bytes),
        },
        5 => Operation::Save {
            register: info,
            offset: le_at(bytes, 2),
        },
        8 => Operation::SaveXmm {
            register: info,
            offset: 16 * short_at(bytes),
        },
        _ => Operation::SaveXmm {
            register: info,
            offset: le_at(bytes, 2),
        },
    }
}

// The code that `bytes` begin with, which stands at this slot, and how many slots it takes.
fn decode_first(slot: usize, bytes: &[u8]) -> Result<(Code, usize), InfoReason>
    requires { 2 ≤ length bytes.now }
    ensures value { result_map_both (λ p. p) reason_number result ≡ decoded_in slot bytes.now }
    ensures within { IfOk result (λ p. (1 ≤ p.1) × (2 * p.1 ≤ length bytes.now)) }
{
    let op = bytes[1] % 16;
    let info = bytes[1] / 16;
    let used = slots_of(op, info)?;
    if bytes.len() < 2 * used {
        return Err(InfoReason::PastCount);
    }
    let code = Code {
        slot,
        offset: bytes[0],
        operation: meaning(op, info, bytes),
    };
    Ok((code, used))
}

// As a pair: the code at a slot, and how many slots it takes. 43 where it is none, 44 where it passes the slots' end.
pub fn decode(slots: &[u8], slot: usize) -> Result<(Code, usize), InfoReason>
    ensures value { result_map_both (λ p. p) reason_number result ≡ code_at slots.now slot }
    ensures within { IfOk result (λ p. (1 ≤ p.1) × (2 * (slot + p.1) ≤ length slots.now)) }
{
    if slot >= slots.len() / 2 {
        return Err(InfoReason::PastCount);
    }
    decode_first(slot, &slots[2 * slot..])
}
