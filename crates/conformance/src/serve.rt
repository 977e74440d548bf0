// Requests line by line.
use crate::compiling::compile_request;
use crate::reading::read;
use crate::reading_back::read_back_request;
use crate::stop::Stop;
use crate::tabling::table;
use crate::viewing::info;
use protocol::bad::Bad;
use protocol::parts::Parts;
use std::alloc::Global;
use std::io;
use std::io::{BufRead, BufReader, BufWriter, Write};

// The line without its line feed, and without a carriage return before that; the last line may have none.
fn trimmed(line: &[u8]) -> &[u8] {
    match line.strip_suffix(b"\n") {
        Some(rest) => rest.strip_suffix(b"\r").unwrap_or(rest),
        None => line,
    }
}

fn request(heap: Global, text: &[u8], line: &mut Vec<u8>) -> Result<(), Stop> {
    let mut fields = Parts::new(text, b' ');
    match fields.part()? {
        b"read" => read(heap, fields, line),
        b"compile" => compile_request(heap, fields, line),
        b"readback" => read_back_request(heap, fields, line),
        b"table" => table(heap, fields, line),
        b"info" => info(heap, fields, line),
        _ => Err(Stop::Bad(Bad::UnknownRequest)),
    }
}

// The answer to a request, in place of what `line` held.
fn answer(heap: Global, text: &[u8], line: &mut Vec<u8>) -> io::Result<()> {
    line.clear();
    if let Err(stop) = request(heap, text, line) {
        line.clear();
        write!(line, "{stop}")?;
    }
    line.extend_from_slice(b"\n")?;
    Ok(())
}

pub fn serve(rt: &HostRuntime) -> io::Result<()> {
    let heap = rt.alloc();
    let mut input = BufReader::new(heap, rt.stdin())?;
    let mut output = BufWriter::new(heap, rt.stdout())?;
    let mut line = Vec::new(heap);
    let mut out = Vec::new(heap);
    // As long as there are lines: a loop has to be bounded to be proved to end.
    for _ in 0..u64::MAX {
        line.clear();
        if input.read_until(b'\n', &mut line)? == 0 {
            break;
        }
        let text = trimmed(line.as_slice());
        if text.is_empty() || text.starts_with(b"#") {
            continue;
        }
        answer(heap, text, &mut out)?;
        output.write_all(out.as_slice())?;
    }
    output.flush()
}
