// The numbers of the definitions, for the lengths of arrays and the places in them: specs/Wire, Card and Save say the same, and the
// proofs hold what is written here to them. A contract speaks of those.
#![tactic(auto)]

pub const OPAQUE_LIMIT: usize = 128;

pub const ROOT_LIMIT: usize = 16;

pub const NAME_LIMIT: usize = 6 + ROOT_LIMIT + OPAQUE_LIMIT;

pub const RECORD_BESIDE: usize = 24;

pub const RECORD_LIMIT: usize = RECORD_BESIDE + NAME_LIMIT;

pub const TREE_LIMIT: usize = 64;

pub const ROUTE_LIMIT: usize = 32;

pub const LABEL_COUNT: usize = 256;

pub const NEIGHBOUR_COUNT: usize = 16;

// the labels that a message may carry, and the highest base of a block
pub const LEAST_LABEL: u64 = 16;

pub const MOST_LABEL: u64 = 1048575;

pub const MOST_BASE: u64 = MOST_LABEL + 1 - LABEL_COUNT as u64;

pub const SENT_LIMIT: usize = TREE_LIMIT * 2 * RECORD_LIMIT;
// of a save
pub const SAVED_OPAQUE: usize = 32;

pub const SAVED_ROOT_SPACE: usize = 1 + ROOT_LIMIT;

// the head of the old form ends where the new one has the last label given
pub const LAST_PLACE: usize = 15;

pub const LAST_END: usize = LAST_PLACE + 4;

// a name in the old form
pub const SPACED_NAME: usize = SAVED_ROOT_SPACE + (1 + SAVED_OPAQUE);

pub const ROUTE_SIZE: usize = 4 + SAVED_ROOT_SPACE;

// of the records of trees and labels, beside the name
pub const TREE_BESIDE: usize = 3 + (1 + 4 * NEIGHBOUR_COUNT);

pub const USE_BESIDE: usize = 9;

// the longest save: of the new form, which is the longer
pub const SAVE_LIMIT: usize = LAST_END
    + ROUTE_LIMIT * ROUTE_SIZE
    + TREE_LIMIT * (TREE_BESIDE + (1 + NAME_LIMIT))
    + LABEL_COUNT * (USE_BESIDE + (1 + NAME_LIMIT));
// its digits in hex
pub const SAVE_DIGITS: usize = 2 * SAVE_LIMIT;
