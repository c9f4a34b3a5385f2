// The three signalling registers.

// Registers 19, 1A and 1B.
#[derive(Clone, Copy)]
pub struct Registers {
    pub r19: u8,
    pub r1a: u8,
    pub r1b: u8,
}
