// The paper's refusals and their numbers, its limits, and how an answer is told in numbers: code here, their meaning
// in specs/.
#![tactic(auto)]

ghost use Rattle.std.specs.Prelude.{◌≡◌};
ghost use Rattle.refusals.specs.Told.{number_of, told, count_in, distances_in, found_in};

pub mod limit;

// Why a call is refused, in the order of the paper's numbers.
#[derive(Clone, Copy, Debug, PartialEq, Eq)]
pub enum Refusal {
    Size,
    Table,
    Argument,
    Kind,
    Twice,
    Absent,
    Full,
    Clock,
    Short,
    Loose,
}

// The paper's numbers.
impl From<Refusal> for u8 {
    ghost from_gives = { λ refusal number. number ≡ number_of refusal };

    fn from(refusal: Refusal) -> u8 {
        match refusal {
            Refusal::Size => 1,
            Refusal::Table => 2,
            Refusal::Argument => 3,
            Refusal::Kind => 4,
            Refusal::Twice => 5,
            Refusal::Absent => 6,
            Refusal::Full => 7,
            Refusal::Clock => 8,
            Refusal::Short => 9,
            Refusal::Loose => 10,
        }
    }
}

// The number that a call returns: 0 if it was done.
pub fn told<T: Copy>(answer: Result<T, Refusal>) -> u8
    ensures { result ≡ told answer }
{
    match answer {
        Ok(_) => 0,
        Err(refusal) => u8::from(refusal),
    }
}

// What a search counts: the distances worked out, and the cards found.
#[derive(Clone, Copy)]
pub struct Found {
    pub count: u32,
    pub found: u32,
}

// What a call counts: "A refusal returns zero counts".
pub fn count_in(answer: Result<u32, Refusal>) -> u32
    ensures { result ≡ count_in answer }
{
    answer.unwrap_or(0)
}

// What a search counts, likewise.
pub fn counts_in(answer: Result<Found, Refusal>) -> Found
    ensures { (result.count ≡ distances_in answer) × (result.found ≡ found_in answer) }
{
    answer.unwrap_or(Found { count: 0, found: 0 })
}
