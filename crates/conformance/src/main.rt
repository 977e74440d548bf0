// Serves requests on standard input, one answer a line on standard output.
#![tactic(auto)]

mod compiling;
mod list;
mod pile;
mod planning;
mod reading;
mod reading_back;
mod serve;
mod short;
mod stop;
mod tabling;
mod viewing;
mod world;

use crate::serve::serve;
use std::io;

fn main(rt: HostRuntime) -> io::Result<()> {
    serve(&rt)
}
