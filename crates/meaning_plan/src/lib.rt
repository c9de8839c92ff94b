// The numbers of the definitions, for the lengths of arrays and the places in them: specs/PlanOctets says the same, and the proofs
// hold what is written here to it. A contract speaks of that.
#![tactic(auto)]

use meaning::{ROOT_LIMIT, ROUTE_LIMIT};

pub const SET_SIZE: usize = 2 + (1 + ROOT_LIMIT);

pub const ENTRY_SIZE: usize = 1 + (1 + ROOT_LIMIT);

pub const LIST_LIMIT: usize = ROUTE_LIMIT * ENTRY_SIZE;
