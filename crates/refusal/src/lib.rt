// What a call is refused for, by name, and the number that document 01 gives it. A check answers `Ok(())`, or the
// refusal whose condition holds; a call answers what it did, or the first refusal that applies.
//
// The definitions that the promises cite are in specs/Refusal.
#![tactic(auto)]

ghost use Rattle.std.specs.Prelude.{◌≡◌};
ghost use Rattle.refusal.specs.Refusal.{number, answer_number};

// The refusals of document 01's table and of document 02, in the order of their numbers.
#[derive(Clone, Copy, Debug, PartialEq, Eq)]
pub enum Refusal {
    PartitionCount,
    Cuts,
    Capacity,
    Length,
    Unsound,
    Label,
    Item,
    Backward,
    Full,
    Crowded,
    Missing,
    Lacking,
    ShortCache,
    Malformed,
    OutOfTurn,
    PastCalendar,
    Minimum,
    ShortBuffer,
}

impl From<Refusal> for u64 {
    ghost from_gives = { λ refusal n. n ≡ number refusal };

    // The number of a refusal.
    fn from(refusal: Refusal) -> u64 {
        match refusal {
            Refusal::PartitionCount => 1,
            Refusal::Cuts => 2,
            Refusal::Capacity => 3,
            Refusal::Length => 4,
            Refusal::Unsound => 5,
            Refusal::Label => 6,
            Refusal::Item => 7,
            Refusal::Backward => 8,
            Refusal::Full => 9,
            Refusal::Crowded => 10,
            Refusal::Missing => 11,
            Refusal::Lacking => 12,
            Refusal::ShortCache => 14,
            Refusal::Malformed => 15,
            Refusal::OutOfTurn => 16,
            Refusal::PastCalendar => 17,
            Refusal::Minimum => 18,
            Refusal::ShortBuffer => 19,
        }
    }
}

// The number of an answer: 0 where it is accepted.
pub fn answer_number<T: Copy>(answer: Result<T, Refusal>) -> u64
    ensures { result ≡ answer_number answer }
{
    match answer {
        Ok(_) => 0,
        Err(refusal) => refusal.into(),
    }
}
