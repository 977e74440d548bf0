// Shows dumps with holes and function tables to people.
#![tactic(auto)]

mod compiled;
mod demo;
mod listing;
mod memories;
mod names;
mod plan_file;
#[cfg(test)]
mod plan_file_tests;
mod refusal;
mod report;
mod tables_of;

use crate::compiled::show_plan_file;
use crate::demo::show_all;
use crate::tables_of::show_files;
use anyhow::anyhow;
use std::env;

const USAGE: &str = "usage: stackwalk
           shows a dump with a hole, the report of a small function table, and a description compiled
       stackwalk table TABLE INFOS START SIZE
           reports the function table in the file TABLE, whose unwind infos are in the file INFOS;
           START is the RVA of the first info byte, and SIZE the module's size
       stackwalk compile PLAN
           compiles the description in the text file PLAN, and lists its code, function table and infos";

fn run(rt: &HostRuntime) -> anyhow::Result<()> {
    let mut words = Vec::new(rt.alloc());
    for word in env::args(rt)?.skip(1) {
        words.push(word)?;
    }
    // Of more than five words the others are left out.
    match words.as_slice() {
        [] => show_all(rt),
        [word, plan] if word.as_str() == "compile" => show_plan_file(rt, plan.as_str()),
        [word, table, infos, start, size, ..] if word.as_str() == "table" => show_files(
            rt,
            table.as_str(),
            infos.as_str(),
            start.as_str(),
            size.as_str(),
        ),
        [word, _, _, _, _, ..] => {
            // An error holds 120 bytes of text, too few for the usage.
            eprintln!(rt; "{USAGE}")?;
            Err(anyhow!("{word} is no command"))
        }
        _ => {
            println!(rt; "{USAGE}")?;
            Ok(())
        }
    }
}

fn main(rt: HostRuntime) -> anyhow::Result<()> {
    run(&rt)
}
