// The numbered refusals: every call of the library that gives no answer gives one of these.
#![tactic(auto)]

ghost use Rattle.std.specs.Prelude.{◌≡◌};
ghost use Rattle.refusal.specs.Number.{number_of, number_in};

// Why a call is refused, by the names and numbers of the refusal table.
#[derive(Clone, Copy, Debug, PartialEq, Eq)]
pub enum Refusal {
    Slots = 1,
    Epsilon = 2,
    Block = 3,
    Damaged = 4,
    Count = 5,
    Full = 6,
    Phi = 7,
    Empty = 8,
    BoundsEmpty = 9,
    BoundsMany = 10,
    BoundsOrder = 11,
    File = 12,
}

impl Refusal {
    // The number of the refusal table.
    pub fn number(self) -> u32
        ensures { result ≡ number_of self }
    {
        self as u32
    }

    // The number of the refusal that an answer is, 0 where it is none.
    pub fn number_in<T: Copy>(answer: Result<T, Refusal>) -> u32
        ensures { result ≡ number_in answer }
    {
        if let Err(why) = answer {
            return why.number();
        }
        0
    }
}
