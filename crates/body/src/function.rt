// A whole function: prologue, operations, loads of the saves, epilogue.
ghost use Rattle.std.specs.Prelude.{◌≡◌, ◌+◌, ◌^◌, ◌<◌, ◌≤◌, map, length};
ghost use Rattle.layout.specs.Cursors.{HasRoom, wrote};
ghost use Rattle.plan.specs.Bodies.{bytes, leave_by, leave, function_bytes, function_size};
ghost use Rattle.plan.specs.Functions.{function_of};
ghost use Rattle.plan.specs.Steps.{step_of, block, frame};
ghost use Rattle.std.specs.Option.{option_to_list};

use crate::operations::{operations_size, write_operations};
use crate::part::{loads_size, pops_size, prologue_size, write_loads, write_pops, write_prologue};
use layout::cursor::Cursor;
use plan::survey::{block_size, frame_register};
use plan::text::{Function, StepRecord};
use x64::encode::{emit, encoded_length};
use x64::instruction::Instruction;

// The instruction that moves RSP to the block's end.
fn leaving(steps: &[StepRecord]) -> Option<Instruction>
    ensures { option_to_list result ≡ leave_by (frame (map step_of steps.now)) (block (map step_of steps.now)) }
{
    let block = block_size(steps);
    match frame_register(steps) {
        Some(f) => Some(Instruction::LeaRspAtFrame {
            frame: f.register,
            displacement: block.wrapping_sub(u32::from(f.offset)),
        }),
        None => {
            if block == 0 {
                None
            } else {
                Some(Instruction::AddRsp(block))
            }
        }
    }
}

fn leaving_size(steps: &[StepRecord]) -> usize
    ensures size { result ≡ length (bytes (leave_by (frame (map step_of steps.now)) (block (map step_of steps.now)))) }
    ensures bound { result ≤ 8 }
{
    leaving(steps).map_or(0, encoded_length)
}

fn write_leaving(steps: &[StepRecord], out: &mut Cursor)
    requires { HasRoom out.old (bytes (leave_by (frame (map step_of steps.now)) (block (map step_of steps.now)))) }
    ensures { out.new ≡ wrote out.old (bytes (leave_by (frame (map step_of steps.now)) (block (map step_of steps.now)))) }
{
    if let Some(i) = leaving(steps) {
        emit(out, i);
    }
}

// Writes the loads of the saves and the epilogue.
fn write_leave(steps: &[StepRecord], out: &mut Cursor)
    requires { HasRoom out.old (bytes (leave (map step_of steps.now))) }
    ensures { out.new ≡ wrote out.old (bytes (leave (map step_of steps.now))) }
{
    write_loads(frame_register(steps), steps, out);
    write_leaving(steps, out);
    write_pops(steps, out);
    emit(out, Instruction::Ret);
}

// How many bytes a function has, wherever it stands.
pub fn function_size(f: Function<'_>) -> usize
    requires { (length f.steps.now ≤ 10) × (length f.operations.now ≤ 255) }
    ensures size { result ≡ function_size (function_of f.entry) }
    ensures bound { result ≤ 2300 }
{
    let entering = prologue_size(f.steps);
    let working = operations_size(f.operations);
    let loading = loads_size(frame_register(f.steps), f.steps);
    let leaving = leaving_size(f.steps);
    let popping = pops_size(f.steps);
    entering + working + loading + leaving + popping + 1
}

// Writes a function that starts at an RVA.
pub fn write_function(f: Function<'_>, starts: &[u32], rva: u32, out: &mut Cursor)
    requires room { HasRoom out.old (function_bytes starts.now rva (function_of f)) }
    requires low { rva + length (function_bytes starts.now rva (function_of f)) + 5 < 2 ^ 32 }
    ensures { out.new ≡ wrote out.old (function_bytes starts.now rva (function_of f.entry)) }
{
    let from = out.at;
    write_prologue(f.steps, out);
    let body = rva + (out.at - from) as u32;
    write_operations(f.operations, starts, body, out);
    write_leave(f.steps, out);
}
