// The labels of the block: whether one is free, and what the others are used for.
#![tactic(auto)]

ghost use Rattle.std.specs.Prelude.{◌≡◌, ℕ, ◌+◌, ◌-◌, ◌<◌, ◌≤◌, true, false, List, ◌≢◌};
ghost use Rattle.meaning.specs.Card.{is_free, is_awaiting, mapped_to, use_of, awaiting, label_count, neighbour_count, nobody};
ghost use Rattle.memory.specs.Sizes.{Numbers, Names};
ghost use Rattle.memory.specs.Memory.{card_of, base_in, label_name, is_free_at, is_mapped_at, label_in, InBlock};

use meaning::{LABEL_COUNT, NAME_LIMIT};
use memory::{LABEL_NAMES, MARK_COLUMN, NAME_SPACE, NEIGHBOURS, NOBODY, WORD_COLUMN};

// Whether the label at place p of the block is free: read here, and nowhere else.
pub fn is_free(numbers: &[u64], p: usize) -> bool
    requires { Numbers numbers.now × (p < label_count) }
    ensures { (result ≡ is_free_at numbers.now p) × ((os : List ℕ) → result ≡ is_free (label_in numbers.now os p)) }
{
    (numbers[WORD_COLUMN + p / 64] >> (p % 64)) % 2 == 1
}

// The neighbour to which the label at place p of the block is mapped; 17 for none.
pub fn mapped_at(numbers: &[u64], p: usize) -> u64
    requires { Numbers numbers.now × (p < label_count) }
    ensures { ((os : List ℕ) → result ≡ mapped_to (label_in numbers.now os p)) × (result ≤ nobody)
        × (result ≡ nobody → is_mapped_at numbers.now p ≡ false) × ((result ≢ nobody) → is_mapped_at numbers.now p ≡ true) }
{
    if is_free(numbers, p) {
        return NOBODY;
    }
    let u = numbers[MARK_COLUMN + p] % 256;
    if u < NEIGHBOURS { u } else { NOBODY }
}

// The neighbour from which the label at place p of the block awaits release, where the label is neither free nor mapped.
pub fn awaited_at(numbers: &[u64], p: usize) -> u64
    requires { Numbers numbers.now × (p < label_count) × (is_free_at numbers.now p ≡ false) × (is_mapped_at numbers.now p ≡ false) }
    ensures { ((os : List ℕ) → label_in numbers.now os p ≡ awaiting result (label_name os p)) × (result < 256) }
{
    numbers[MARK_COLUMN + p] % 256 - NEIGHBOURS
}

// The place of a label in the block; LABEL_COUNT or more where it is not of the block: of a label below the base the difference wraps far above.
pub fn place_in_block(numbers: &[u64], label: u64) -> usize
    requires { Numbers numbers.now }
    ensures { InBlock numbers.now label result }
{
    std::num::wrapping_sub_u64(label, memory::base(numbers)) as usize
}

pub fn label_name(names: &[u8], p: usize) -> &[u8]
    requires { Names names.now × (p < label_count) }
    ensures { result.now ≡ label_name names.now p }
{
    memory::text(names, NAME_LIMIT, LABEL_NAMES + p * NAME_SPACE)
}

// Whether a label awaits release from that neighbour for that name.
pub fn is_awaited(numbers: &[u64], names: &[u8], neighbour: u64, name: &[u8], label: u64) -> bool
    requires { Numbers numbers.now × Names names.now × (neighbour < neighbour_count) }
    ensures { (result ≡ is_awaiting neighbour name.now (use_of label (card_of numbers.now names.now)))
        × (result ≡ true → (base_in numbers.now ≤ label) × (label < base_in numbers.now + label_count) × (is_mapped_at numbers.now (label - base_in numbers.now) ≡ false)) }
{
    let p = place_in_block(numbers, label);
    if LABEL_COUNT <= p
        || is_free(numbers, p)
        || numbers[MARK_COLUMN + p] % 256 != NEIGHBOURS + neighbour
    {
        return false;
    }
    octets::equal(label_name(names, p), name)
}
