// The request `compile COUNTS STEPS OPS CODECAP INFOCAP TABLECAP`.
use crate::planning::Description;
use crate::short::count;
use crate::stop::Stop;
use compile::compile::compile;
use compile::lengths::MOST;
use protocol::parts::Parts;
use protocol::write::push_bytes;
use std::alloc::{AllocError, Global};

// The first bytes of a buffer, after a space.
fn push_written(line: &mut Vec<u8>, mut buffer: Vec<u8>, length: usize) -> Result<(), AllocError> {
    buffer.truncate(length);
    line.extend_from_slice(b" ")?;
    push_bytes(line, buffer.as_slice())
}

pub fn compile_request(heap: Global, mut fields: Parts, line: &mut Vec<u8>) -> Result<(), Stop> {
    let description = Description::read(heap, &mut fields)?;
    // A longer buffer makes no difference.
    let code_room = count(fields.part()?, MOST.code)?;
    let info_room = count(fields.part()?, MOST.infos)?;
    let table_room = count(fields.part()?, MOST.table)?;
    fields.end()?;
    let mut code = vec![in heap; 0u8; code_room]?;
    let mut infos = vec![in heap; 0u8; info_room]?;
    let mut table = vec![in heap; 0u8; table_room]?;
    let lengths = compile(
        &description.plan(),
        code.as_mut_slice(),
        infos.as_mut_slice(),
        table.as_mut_slice(),
    )?;
    line.extend_from_slice(b"ok")?;
    push_written(line, code, lengths.code)?;
    push_written(line, infos, lengths.infos)?;
    push_written(line, table, lengths.table)?;
    Ok(())
}
