// The refusals of a call, each with the one number that its caller is told.
#![tactic(auto)]

ghost use Rattle.std.specs.Prelude.{◌≡◌};
ghost use Rattle.refusals.specs.Refusals.{number_of, answer_of, count_of};

#[derive(Clone, Copy, PartialEq, Eq)]
pub enum Refusal {
    NoSuchNeighbour,
    BadLength,
    BadType,
    TlvOverrun,
    BadTlvOrder,
    BadElement,
    BadOpaque,
    BadLabel,
    UnknownTlv,
    OtherLabel,
    TreesFull,
    LabelsShort,
    NotAwaited,
    NotALeaf,
    RootsFull,
    NoRoom,
    BadBase,
    MalformedOpaque,
    BadSave,
    SessionShort,
    BadNotice,
    LastLayer,
}

impl Refusal {
    pub fn number(self) -> u32
        ensures { result ≡ number_of self }
    {
        match self {
            Refusal::NoSuchNeighbour => 1,
            Refusal::BadLength => 2,
            Refusal::BadType => 3,
            Refusal::TlvOverrun => 4,
            Refusal::BadTlvOrder => 5,
            Refusal::BadElement => 6,
            Refusal::BadOpaque => 7,
            Refusal::BadLabel => 8,
            Refusal::UnknownTlv => 9,
            Refusal::OtherLabel => 10,
            Refusal::TreesFull => 11,
            Refusal::LabelsShort => 12,
            Refusal::NotAwaited => 13,
            Refusal::NotALeaf => 14,
            Refusal::RootsFull => 15,
            Refusal::NoRoom => 16,
            Refusal::BadBase => 17,
            Refusal::MalformedOpaque => 18,
            Refusal::BadSave => 19,
            Refusal::SessionShort => 20,
            Refusal::BadNotice => 21,
            Refusal::LastLayer => 22,
        }
    }
}

// The number of a call's answer, 0 where it was not refused.
pub fn answer_of<T>(done: &Result<T, Refusal>) -> u32
    ensures { result ≡ answer_of done.now }
{
    match done {
        Ok(_) => 0,
        Err(refusal) => refusal.number(),
    }
}

// For a caller that is told a number and a count: 0 and the count, or the number and 0.
pub fn tell(done: Result<usize, Refusal>, answer: &mut u32) -> usize
    ensures answer { answer.new ≡ answer_of done }
    ensures count { result ≡ count_of done }
{
    match done {
        Ok(count) => {
            *answer = 0;
            count
        }
        Err(refusal) => {
            *answer = refusal.number();
            0
        }
    }
}
