// The verb of a line of the bench program.
// Kept: tests of whole words, as the definition has them: a `match` over the words was tried, and asks an answer for each octet at which a word may part, eleven for two words.
#![tactic(auto)]

ghost use Rattle.std.specs.Prelude.{◌≡◌};
ghost use Rattle.bench_verbs.specs.Line.{plan_verb, layer_verb, save_verb, requested_verb, verb_of};

// The word that begins an order. Where an order is of a save, the mark says that it is one of the new form.
#[derive(Clone, Copy)]
pub enum Verb {
    Start,
    Room,
    Take,
    Join,
    Leave,
    Route,
    Label,
    Tree,
    Free,
    Notice,
    Save(bool),
    Restore(bool),
    Lost,
    Move(bool),
    Layers,
    Wrap,
    Unwrap,
    Plan,
    Vet,
    Other,
}

// The verbs of plans.
fn plan_verb(word: &[u8]) -> Verb
    ensures { result ≡ plan_verb word.now }
{
    if octets::equal(word, b"plan") {
        return Verb::Plan;
    }
    if octets::equal(word, b"vet") {
        return Verb::Vet;
    }
    Verb::Other
}

// The verbs of names inside names.
fn layer_verb(word: &[u8]) -> Verb
    ensures { result ≡ layer_verb word.now }
{
    if octets::equal(word, b"layers") {
        return Verb::Layers;
    }
    if octets::equal(word, b"wrap") {
        return Verb::Wrap;
    }
    if octets::equal(word, b"unwrap") {
        return Verb::Unwrap;
    }
    plan_verb(word)
}

// The verbs of the orders on saves.
fn save_verb(word: &[u8]) -> Verb
    ensures { result ≡ save_verb word.now }
{
    if octets::equal(word, b"save") {
        return Verb::Save(false);
    }
    if octets::equal(word, b"restore") {
        return Verb::Restore(false);
    }
    if octets::equal(word, b"save2") {
        return Verb::Save(true);
    }
    if octets::equal(word, b"restore2") {
        return Verb::Restore(true);
    }
    if octets::equal(word, b"newer") {
        return Verb::Move(false);
    }
    if octets::equal(word, b"older") {
        return Verb::Move(true);
    }
    layer_verb(word)
}

// The verbs of the other orders that requests brought.
fn requested_verb(word: &[u8]) -> Verb
    ensures { result ≡ requested_verb word.now }
{
    if octets::equal(word, b"notice") {
        return Verb::Notice;
    }
    if octets::equal(word, b"lost") {
        return Verb::Lost;
    }
    save_verb(word)
}

pub fn verb_of(word: &[u8]) -> Verb
    ensures { result ≡ verb_of word.now }
{
    if octets::equal(word, b"start") {
        return Verb::Start;
    }
    if octets::equal(word, b"room") {
        return Verb::Room;
    }
    if octets::equal(word, b"take") {
        return Verb::Take;
    }
    if octets::equal(word, b"join") {
        return Verb::Join;
    }
    if octets::equal(word, b"leave") {
        return Verb::Leave;
    }
    if octets::equal(word, b"route") {
        return Verb::Route;
    }
    if octets::equal(word, b"label") {
        return Verb::Label;
    }
    if octets::equal(word, b"tree") {
        return Verb::Tree;
    }
    if octets::equal(word, b"free") {
        return Verb::Free;
    }
    requested_verb(word)
}
