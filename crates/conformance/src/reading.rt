// The request `read MEMORY ADDRESSES`.
use crate::list::{list, push_list};
use crate::pile::{Job, on_memory};
use crate::stop::Stop;
use crate::world::World;
use layout::address::Address;
use layout::refusal::Numbered;
use memory::reading::{Lacking, Memory};
use protocol::parts::Parts;
use protocol::write::{push_decimal, push_hex};
use std::alloc::{AllocError, Global};

// The addresses to read.
#[derive(Drop)]
struct Reading {
    addresses: Vec<Address>,
}

// The byte, or the refusal's number and the address.
fn push_read(line: &mut Vec<u8>, read: Result<u8, Lacking>) -> Result<(), AllocError> {
    match read {
        Ok(byte) => push_hex(line, u128::from(byte)),
        Err(lacking) => {
            push_decimal(line, u128::from(lacking.number()))?;
            line.extend_from_slice(b".")?;
            push_hex(line, u128::from(lacking.at.0))
        }
    }
}

impl Job for Reading {
    fn run<M: Memory>(&self, memory: &mut M, line: &mut Vec<u8>) -> Result<(), Stop> {
        line.extend_from_slice(b"ok ")?;
        push_list(line, self.addresses.as_slice(), |line, at| {
            push_read(line, memory.read(*at))
        })?;
        Ok(())
    }
}

pub fn read(heap: Global, mut fields: Parts, line: &mut Vec<u8>) -> Result<(), Stop> {
    let world = World::read(heap, fields.part()?)?;
    let addresses = list(heap, fields.part()?)?;
    fields.end()?;
    on_memory(&world, &Reading { addresses }, line)
}
