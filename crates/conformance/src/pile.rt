// Memories under layers, and the jobs that run on any of them. Each number of layers makes a type of its own, so a step lays
// one layer and leaves the others to the step for one layer less.
ghost use Rattle.std.specs.Prelude.{ℕ, ◌+◌, ◌≤◌, length};

use crate::stop::Stop;
use crate::world::{Layer, Source, World};
use limit::layer::Limit;
use memory::flat::FlatImage;
use memory::reading::Memory;
use memory::sparse::SparseDump;
use std::marker::PhantomData;

// What a request does with its memory; it writes the answer at the end of `line`.
pub trait Job {
    fn run<M: Memory>(&self, memory: &mut M, line: &mut Vec<u8>) -> Result<(), Stop>;
}

// The layer over `below`, with its windows admitted.
fn laid<M: Memory + Drop>(below: M, layer: &Layer) -> Result<Limit<M>, Stop> {
    let mut limit = Limit::new(below);
    for window in layer.windows.iter() {
        limit.admit(window.first, window.last)?;
    }
    Ok(limit)
}

// How many layers may still come. A trait object would not do: a recursion that makes one is not covered by the check.
trait Depth {
    ghost LAYERS: { ℕ };

    // Lays the layers over the memory, and runs the job on what they make.
    fn run<M: Memory + Drop, J: Job>(
        memory: M,
        layers: &[Layer],
        job: &J,
        line: &mut Vec<u8>,
    ) -> Result<(), Stop>
        requires { length layers.now ≤ LAYERS };
}

// No layer may come.
struct Top;

// One layer more than `D` takes may come.
struct Over<D>(PhantomData<D>);

impl Depth for Top {
    ghost LAYERS = { 0 };

    fn run<M: Memory + Drop, J: Job>(
        mut memory: M,
        _layers: &[Layer],
        job: &J,
        line: &mut Vec<u8>,
    ) -> Result<(), Stop> {
        job.run(&mut memory, line)
    }
}

impl<D: Depth> Depth for Over<D> {
    ghost LAYERS = { D.LAYERS + 1 };

    fn run<M: Memory + Drop, J: Job>(
        mut memory: M,
        layers: &[Layer],
        job: &J,
        line: &mut Vec<u8>,
    ) -> Result<(), Stop> {
        match layers {
            [layer, rest @ ..] => D::run(laid(memory, layer)?, rest, job, line),
            [] => job.run(&mut memory, line),
        }
    }
}

// At most four layers.
type Four = Over<Over<Over<Over<Top>>>>;

// Builds the memory from its source up, and runs the job on it.
pub fn on_memory<J: Job>(world: &World, job: &J, line: &mut Vec<u8>) -> Result<(), Stop> {
    match &world.source {
        Source::Flat { start, bytes } => {
            let image = FlatImage::new(*start, bytes.as_slice())?;
            Four::run(image, world.layers.as_slice(), job, line)
        }
        Source::Sparse { ranges, bytes } => {
            let dump = SparseDump::new(ranges.as_slice(), bytes.as_slice())?;
            Four::run(dump, world.layers.as_slice(), job, line)
        }
    }
}
