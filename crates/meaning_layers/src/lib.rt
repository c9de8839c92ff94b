// The numbers of the definitions, for the places in a name: specs/Layers says the same, and the proofs hold what is written here to it.
#![tactic(auto)]

pub const PLAIN_KIND: u64 = 7;

pub const EIGHT_KIND: u64 = 8;

pub const HOLDER_HEAD: usize = 3;

pub const EIGHT_SIZE: usize = 8;
