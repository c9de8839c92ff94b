// Trees sought by their names while a save is read. The last four octets of each tree's name, as a number, are read once: names that differ
// there, as most do, are told apart without a look at their octets.
#![tactic(auto)]

ghost use Rattle.std.specs.Prelude.{◌≡◌, true, false, ◌+◌, ◌%◌, ◌≤◌, ◌<◌, length, drop, get_or};
ghost use Rattle.meaning.specs.Octets.{place, same};
ghost use Rattle.meaning.specs.Card.{named, tree_place, tree_limit};
ghost use Rattle.meaning_save.specs.Save.{once_each, same_name};
ghost use Rattle.memory.specs.Sizes.{Numbers, Names};
ghost use Rattle.memory.specs.Memory.{card_of, tree_count, tree_name, StandsAt};
ghost use Rattle.save_tags.specs.Tags.{tag_of, Tagged, hint_count, hinted, Alone};

use meaning::TREE_LIMIT;

// As many as the last octet of a tag can tell apart.
pub const HINT_COUNT: usize = 256;

fn tag(name: &[u8]) -> u32
    ensures { result ≡ tag_of name.now }
{
    octets::four_at(name, name.len().saturating_sub(4)) as u32
}

// The tags of all trees' names.
pub fn tree_tags(numbers: &[u64], names: &[u8], tags: &mut [u32])
    requires { Numbers numbers.now × Names names.now × (length tags.old ≡ tree_limit) }
    ensures { Tagged tags.new (tree_count numbers.now) names.now }
{
    let n = memory::tree_count(numbers);
    for i in 0..n {
        tags[i] = tag(memory_trees::tree_name(names, i));
    }
}

// Whether the tree at place i has that name, whose tag is t.
fn is_named(names: &[u8], tags: &[u32], i: usize, t: u32, name: &[u8]) -> bool
    requires { Names names.now × (length tags.now ≡ tree_limit) × (i < tree_limit) × (get_or tags.now i 0 ≡ tag_of (tree_name names.now i)) × (t ≡ tag_of name.now) }
    ensures { result ≡ same (tree_name names.now i) name.now }
{
    tags[i] == t && octets::equal(memory_trees::tree_name(names, i), name)
}

// The place of the tree of that name, from place `from` on; the number of trees where it does not stand there.
pub fn tagged_from(numbers: &[u64], names: &[u8], tags: &[u32], from: usize, name: &[u8]) -> usize
    requires { Numbers numbers.now × Names names.now × (length tags.now ≡ tree_limit) × Tagged tags.now (tree_count numbers.now) names.now × (from ≤ tree_count numbers.now) }
    ensures { (result ≡ from + place (named name.now) (drop from (card_of numbers.now names.now).trees))
        × (result ≤ tree_count numbers.now) × (result ≤ tree_limit) }
{
    let n = memory::tree_count(numbers);
    let t = tag(name);
    for i in from..n {
        if is_named(names, tags, i, t, name) {
            return i;
        }
    }
    n
}

// The place in the hints of the names with that tag.
fn hint_place(t: u32) -> usize
    ensures { (result ≡ t % hint_count) × (result < hint_count) }
{
    t as usize % HINT_COUNT
}

// For each tree a hint, which is its place. Of trees with one place in the hints the last one stays: a hint says whom to ask first, and tells
// nothing by itself.
pub fn tree_hints(numbers: &[u64], tags: &[u32], hints: &mut [u8])
    requires { Numbers numbers.now × (length tags.now ≡ tree_limit) × (length hints.old ≡ hint_count) }
{
    let n = memory::tree_count(numbers);
    for i in 0..n {
        let k = hint_place(tags[i]);
        hints[k] = i as u8;
    }
}

// The place of the tree of that name, where no two trees have one name; the number of trees where none has it. The tree that the hints name,
// whatever they hold, is asked before all others.
pub fn tagged_near(numbers: &[u64], names: &[u8], tags: &[u32], hints: &[u8], name: &[u8]) -> usize
    requires { let c = card_of numbers.now names.now in Numbers numbers.now × Names names.now × (length tags.now ≡ tree_limit) × Tagged tags.now (tree_count numbers.now) names.now
        × (once_each same_name c.trees ≡ true) × (length hints.now ≡ hint_count) }
    ensures { (result ≡ tree_place name.now (card_of numbers.now names.now)) × (result ≤ tree_count numbers.now) × (result ≤ tree_limit) }
{
    let t = tag(name);
    let k = hint_place(t);
    let i = hints[k] as usize;
    if i < memory::tree_count(numbers) && is_named(names, tags, i, t, name) {
        return i;
    }
    tagged_from(numbers, names, tags, 0, name)
}

// Whether the hint at the place of its tag names the tree at place i.
fn is_hinted(tags: &[u32], hints: &[u8], i: usize) -> bool
    requires { (length tags.now ≡ tree_limit) × (length hints.now ≡ hint_count) × (i < tree_limit) }
    ensures { result ≡ hinted tags.now hints.now i }
{
    let k = hint_place(tags[i]);
    hints[k] as usize == i
}

// Whether another tree has the name of the tree at place i.
fn has_double(numbers: &[u64], names: &[u8], tags: &[u32], i: usize) -> bool
    requires { Numbers numbers.now × Names names.now × (length tags.now ≡ tree_limit) × Tagged tags.now (tree_count numbers.now) names.now × StandsAt numbers.now i }
    ensures { (result ≡ true → once_each same_name (card_of numbers.now names.now).trees ≡ false) × (result ≡ false → Alone names.now (tree_count numbers.now) i) }
{
    let name = memory_trees::tree_name(names, i);
    tagged_from(numbers, names, tags, 0, name) < i
        || tagged_from(numbers, names, tags, i + 1, name) < memory::tree_count(numbers)
}

// Whether the tree at place i is told from the others: its hint names it, or no other has its name.
fn is_told(numbers: &[u64], names: &[u8], tags: &[u32], hints: &[u8], i: usize) -> bool
    requires { Numbers numbers.now × Names names.now × (length tags.now ≡ tree_limit) × Tagged tags.now (tree_count numbers.now) names.now × (length hints.now ≡ hint_count) × StandsAt numbers.now i }
    ensures { (result ≡ true → hinted tags.now hints.now i ≡ false → Alone names.now (tree_count numbers.now) i)
        × (result ≡ false → once_each same_name (card_of numbers.now names.now).trees ≡ false) }
{
    is_hinted(tags, hints, i) || !has_double(numbers, names, tags, i)
}

// No two trees have one name. Two that their hints name have two places in the hints, and so two tags: the name of any other is sought.
pub fn names_once(numbers: &[u64], names: &[u8]) -> bool
    requires { Numbers numbers.now × Names names.now }
    ensures { result ≡ once_each same_name (card_of numbers.now names.now).trees }
{
    let mut tags = [0u32; TREE_LIMIT];
    tree_tags(numbers, names, &mut tags);
    let mut hints = [0u8; HINT_COUNT];
    tree_hints(numbers, &tags, &mut hints);
    let n = memory::tree_count(numbers);
    for i in 0..n {
        if !is_told(numbers, names, &tags, &hints, i) {
            return false;
        }
    }
    true
}
