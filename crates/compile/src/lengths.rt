// How many bytes each of the three buffers has, or compiling writes into it.

#[derive(Clone, Copy, PartialEq, Eq, Debug)]
pub struct Lengths {
    pub code: usize,
    pub infos: usize,
    pub table: usize,
}

// More than a module of 64 functions can fill, each of at most 10 steps and 255 operations.
pub const MOST: Lengths = Lengths {
    code: 163_840,
    infos: 8192,
    table: 768,
};
