// A line that comes octet by octet, the octets of the input, read chunk by chunk, and those of the output.
#![tactic(auto)]

ghost use Rattle.std.specs.Prelude.{List, [], ◌∷◌, ◌++◌, ℕ, ◌≤◌, length, take, IsOk, IfSome, IsNone};
ghost use Rattle.std.specs.Io.KnownBytes.{Appends, Consumes};
ghost use Rattle.bench_input.specs.Kept.{Keeps};

use std::io;
use std::io::{Read, Write};

// how many octets a program reads at a time
pub const CHUNK_SPACE: usize = 65536;

// How many lines are done, how much of the next is kept, and the room that is lent.
#[derive(Clone, Copy)]
pub struct State {
    pub number: u64,
    pub kept: usize,
    pub room: u32,
}

// What is written to, and the error of the write that failed, if one did.
#[derive(Drop)]
pub struct Output<W> {
    pub to: W,
    pub written: io::Result<()>,
}

// Keeps an octet of a line. Of a line that is too long, what came later is passed over.
pub fn keep(line: &mut [u8], kept: usize, c: u8) -> usize
    ensures { (o : List ℕ) → Keeps line.old kept o → Keeps line.new result (o ++ (c ∷ [])) }
{
    if kept < line.len() {
        line[kept] = c;
        return kept + 1;
    }
    line.len() + 1
}

// Reads once: how many octets came, or none at the end of the input. A read that fails ends the input.
pub fn read_chunk<R: Read>(input: &mut R, chunk: &mut [u8]) -> Option<usize>
    ensures count { IfSome result (λ n. n ≤ length chunk.new) }
    ensures some { IfSome result (λ n. Consumes (R.remaining input.old) (R.remaining input.new) (take n chunk.new)) }
    ensures none { IsNone result → Consumes (R.remaining input.old) (R.remaining input.new) [] }
{
    if let Ok(count) = input.read(chunk) {
        if 0 < count {
            return Some(count);
        }
    }
    None
}

// Writes all, unless a write failed before: behind a gap nothing is written.
pub fn write<W: Write>(out: &mut Output<W>, octets: &[u8])
    ensures { IsOk out.new.written → Appends (W.contents out.old.to) (W.contents out.new.to) octets.now }
{
    if out.written.is_ok() {
        out.written = out.to.write_all(octets);
    }
}
