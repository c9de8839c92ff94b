// The free labels of the block: how many there are, which is given out next, and a label that becomes free or is taken.
#![tactic(auto)]

ghost use Rattle.std.specs.Prelude.{◌≡◌, true, false, List, ℕ, ◌+◌, ◌*◌, ◌-◌, ◌≤◌, ◌<◌};
ghost use Rattle.meaning.specs.Card.{free_labels, free, label_count};
ghost use Rattle.meaning.specs.Events.{set_use, labels_short};
ghost use Rattle.meaning_laws.specs.NextFree.{next_place};
ghost use Rattle.memory.specs.Sizes.{Numbers, word_count};
ghost use Rattle.memory.specs.Memory.{card_of, base_in, is_free_at, is_mapped_at, Relabelled, FirstFree};

use meaning::LABEL_COUNT;
use memory::{FOURTH_WORD, SECOND_WORD, THIRD_WORD, WORD_COLUMN};

// The label at place p of the block is free from now on: its bit is set.
pub fn set_free(numbers: &mut [u64], p: usize)
    requires { Numbers numbers.old × (p < label_count) }
    ensures { Relabelled p numbers.old numbers.new × (is_free_at numbers.new p ≡ true) }
{
    let k = WORD_COLUMN + p / 64;
    numbers[k] = numbers[k] | 1 << (p % 64);
}

// It is free no more: its bit is cleared. What it is used for, its mark is to say.
pub fn set_taken(numbers: &mut [u64], p: usize)
    requires { Numbers numbers.old × (p < label_count) }
    ensures { Relabelled p numbers.old numbers.new × (is_free_at numbers.new p ≡ false) }
{
    let k = WORD_COLUMN + p / 64;
    numbers[k] = numbers[k] & !(1 << (p % 64));
}

pub fn free_labels(numbers: &[u64]) -> usize
    requires { Numbers numbers.now }
    ensures { ((os : List ℕ) → result ≡ free_labels (card_of numbers.now os)) × (result ≤ label_count) }
{
    (u64::count_ones(numbers[WORD_COLUMN])
        + u64::count_ones(numbers[SECOND_WORD])
        + u64::count_ones(numbers[THIRD_WORD])
        + u64::count_ones(numbers[FOURTH_WORD])) as usize
}

// 12: fewer free labels than are needed.
pub fn labels_short(numbers: &[u64], needed: usize) -> bool
    requires { Numbers numbers.now }
    ensures { (os : List ℕ) → result ≡ labels_short (card_of numbers.now os) needed }
{
    free_labels(numbers) < needed
}

// The same where one label is needed: none is free. Nothing is counted for it.
pub fn none_free(numbers: &[u64]) -> bool
    requires { Numbers numbers.now }
    ensures { (os : List ℕ) → result ≡ labels_short (card_of numbers.now os) 1 }
{
    (numbers[WORD_COLUMN] == 0)
        & (numbers[SECOND_WORD] == 0)
        & (numbers[THIRD_WORD] == 0)
        & (numbers[FOURTH_WORD] == 0)
}

// The place of the first free label of word w or behind it; LABEL_COUNT where none is free there.
fn free_from_word(numbers: &[u64], from: usize) -> usize
    requires { Numbers numbers.now × (from ≤ word_count) }
    ensures { FirstFree numbers.now (from * 64) result }
{
    for w in from..LABEL_COUNT / 64 {
        let x = numbers[WORD_COLUMN + w];
        if x != 0 {
            return w * 64 + u64::trailing_zeros(x) as usize;
        }
    }
    LABEL_COUNT
}

// The place of the first free label from place i on; LABEL_COUNT where none is free there. The word of place i is looked at
// without its bits below i.
fn free_from(numbers: &[u64], i: usize) -> usize
    requires { Numbers numbers.now × (i ≤ label_count) }
    ensures { FirstFree numbers.now i result }
{
    if LABEL_COUNT <= i {
        return LABEL_COUNT;
    }
    let x = numbers[WORD_COLUMN + i / 64] >> (i % 64);
    if x != 0 {
        return i + u64::trailing_zeros(x) as usize;
    }
    free_from_word(numbers, i / 64 + 1)
}

// The place of the label that is given out next: the first free one after the last given, going round the block; LABEL_COUNT where
// none is free.
pub fn next_free(numbers: &[u64]) -> usize
    requires { Numbers numbers.now }
    ensures { ((os : List ℕ) → result ≡ next_place (card_of numbers.now os)) × (result ≤ label_count) × (result < label_count → is_free_at numbers.now result ≡ true) }
{
    let p = free_from(numbers, memory::turn(numbers));
    if p < LABEL_COUNT {
        return p;
    }
    free_from_word(numbers, 0)
}

// A label that is not mapped is free from now on.
pub fn free_label(numbers: &mut [u64], label: u64)
    requires { Numbers numbers.old × (base_in numbers.old ≤ label) × (label < base_in numbers.old + label_count) × (is_mapped_at numbers.old (label - base_in numbers.old) ≡ false) }
    ensures { (os : List ℕ) → card_of numbers.new os ≡ set_use label free (card_of numbers.old os) }
{
    let p = (label - memory::base(numbers)) as usize;
    set_free(numbers, p);
}
