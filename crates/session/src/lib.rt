// The sizes of a stream and of a call on it, for the lengths of arrays: specs/Stream and Session say the same, and the proofs hold what is
// written here to them. A contract speaks of those.
#![tactic(auto)]

use meaning::RECORD_LIMIT;

pub const PDU_HEAD: usize = 10;

pub const IDENTIFIER_SIZE: usize = 6;

pub const LEAST_LENGTH: usize = 14;

pub const MOST_LENGTH: usize = 4096;

pub const BODY_LIMIT: usize = MOST_LENGTH - IDENTIFIER_SIZE;

pub const MESSAGE_ROOM: usize = 2 * RECORD_LIMIT;

pub const STREAM_ROOM: usize = 4 + MOST_LENGTH;

pub const STREAM_NUMBERS: usize = 4;
