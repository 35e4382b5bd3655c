// Where the tuples of a set in a slice have their bits, and which ranks they have.
#[derive(Drop, Clone, Copy)]
pub(crate) struct Block {
    // The number of the first bit.
    pub(crate) first: u32,
    // The first rank.
    pub(crate) start: u32,
    // How many tuples there are.
    pub(crate) count: u32,
}

// The bits of those tuples of a set that differ in the digit of a column alone.
#[derive(Drop, Clone, Copy)]
pub(crate) struct Line {
    // The bit of the tuple with the digit 0.
    pub(crate) first: u32,
    // How far the bits of neighbouring digits are apart.
    pub(crate) step: u32,
}
