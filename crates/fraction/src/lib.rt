// Fractions of whole numbers, and which of them are allowed.
// Every function takes any words: what no rule speaks of is answered by its definition in specs/, and nothing traps.
#![tactic(auto)]

ghost use Rattle.std.specs.Prelude.{◌≡◌};
ghost use Rattle.fraction.specs.Allowed.{is_epsilon, is_error, is_phi, denominators};

// A fraction by value: numerator over denominator, lowest terms not required.
#[derive(Clone, Copy)]
pub struct Fraction {
    pub num: u32,
    pub den: u32,
}

impl Fraction {
    // The largest denominator.
    pub const DENOMINATOR: u32 = 65536;

    // The most observations at which `inv_at` is asked.
    pub const OBSERVATIONS: u32 = 1000000000;

    // The largest denominator as a function: its contract ties the constant to the definition.
    pub fn denominator() -> u32
        ensures { result ≡ denominators }
    {
        Fraction::DENOMINATOR
    }

    // Whether the fraction may be a φ or a q: from 0 to 1, the denominator from 1 to 65,536.
    pub fn is_phi(self) -> bool
        ensures { result ≡ is_phi self }
    {
        1 <= self.den && self.den <= Fraction::DENOMINATOR && self.num <= self.den
    }

    // Whether it may be a stream's ε: above 0, and at most 1/2.
    pub fn is_epsilon(self) -> bool
        ensures { result ≡ is_epsilon self }
    {
        self.is_phi() && 1 <= self.num && 2 * u64::from(self.num) <= u64::from(self.den)
    }

    // Whether it may be a CKMS error: above 0, and below 1.
    pub fn is_error(self) -> bool
        ensures { result ≡ is_error self }
    {
        self.is_phi() && 1 <= self.num && self.num < self.den
    }
}
