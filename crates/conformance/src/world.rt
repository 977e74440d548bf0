// The MEMORY of a request as the line gives it, before anything of it is built.
ghost use Rattle.std.specs.Prelude.{◌≤◌, vec_len};

use crate::list::{Notation, list};
use layout::address::Address;
use limit::window::Window;
use memory::range::DumpRange;
use protocol::bad::Bad;
use protocol::bytes::byte_string;
use protocol::number::number;
use protocol::parts::Parts;
use std::alloc::Global;

#[derive(Drop)]
pub enum Source {
    Flat {
        start: Address,
        bytes: Vec<u8>,
    },
    Sparse {
        ranges: Vec<DumpRange>,
        bytes: Vec<u8>,
    },
}

// A limit layer, with the windows to admit in order.
#[derive(Drop)]
pub struct Layer {
    pub windows: Vec<Window>,
}

// A source and the layers on it, the lowest first.
#[derive(Drop)]
pub struct World {
    pub source: Source,
    pub layers: Vec<Layer>,
    ghost few: { vec_len layers ≤ 4 },
}

impl Source {
    fn read(heap: Global, text: &[u8]) -> Result<Source, Bad> {
        let mut parts = Parts::new(text, b'@');
        match parts.part()? {
            b"flat" => {
                let start = Address(number(parts.part()?)?);
                let bytes = byte_string(heap, parts.part()?)?;
                parts.end()?;
                Ok(Source::Flat { start, bytes })
            }
            b"sparse" => {
                let ranges = list(heap, parts.part()?)?;
                let bytes = byte_string(heap, parts.part()?)?;
                parts.end()?;
                Ok(Source::Sparse { ranges, bytes })
            }
            _ => Err(Bad::UnknownSource),
        }
    }
}

impl Layer {
    fn read(heap: Global, text: &[u8]) -> Result<Layer, Bad> {
        let mut parts = Parts::new(text, b'@');
        match parts.part()? {
            b"limit" => {
                let windows = list(heap, parts.part()?)?;
                parts.end()?;
                Ok(Layer { windows })
            }
            _ => Err(Bad::UnknownLayer),
        }
    }
}

impl World {
    pub fn read(heap: Global, text: &[u8]) -> Result<World, Bad> {
        let mut parts = Parts::new(text, b'|');
        let source = Source::read(heap, parts.part()?)?;
        let mut layers = Vec::new(heap);
        for part in parts {
            if layers.len() >= 4 {
                return Err(Bad::TooManyLayers);
            }
            layers.push(Layer::read(heap, part)?)?;
        }
        Ok(World { source, layers })
    }
}
