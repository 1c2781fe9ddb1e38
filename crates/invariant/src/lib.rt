// inv, the CKMS store's invariant: max(1, ⌊2 · error · x⌋), from which come a new entry's delta, what a compression merges and where a query stops.
// The functions `inv` and `inv_at` take any words: what no rule speaks of is answered by its definition in `fraction`, and nothing traps.
#![tactic(auto)]

ghost use Rattle.std.specs.Prelude.{◌≡◌, ◌&&◌, true, false, leb, MatchOption};
ghost use Rattle.fraction.specs.Allowed.{is_error, is_phi, observations, within};
ghost use Rattle.fraction.specs.Inv.{inv, inv_at};

use fraction::Fraction;

// A fraction that is allowed as an error: above 0, and below 1.
#[derive(Clone, Copy)]
pub struct AllowedError {
    pub fraction: Fraction,
    pub ghost allowed: { is_error fraction ≡ true },
}

impl AllowedError {
    // The error, if the fraction is allowed as one.
    pub fn new(fraction: Fraction) -> Option<AllowedError>
        ensures { MatchOption result (is_error fraction ≡ false) (λ e. (is_error fraction ≡ true) × (e.fraction ≡ fraction)) }
    {
        if fraction.is_error() {
            Some(AllowedError { fraction })
        } else {
            None
        }
    }

    // inv(x) = max(1, ⌊2 · error · x⌋).
    pub fn inv(self, x: u32) -> u64
        ensures { result ≡ inv self.fraction x }
    {
        let error = self.fraction;
        let whole = 2 * u64::from(error.num) * u64::from(x) / u64::from(error.den);
        // By this test and not by `max`: then no division runs where it would come to 0.
        if whole < 1 {
            return 1;
        }
        whole
    }
}

// inv(x) of an allowed error; 0 of any other fraction. It stays beside the method, since it takes any words.
pub fn inv(f: Fraction, x: u32) -> u64
    ensures { result ≡ within (is_error f) (inv f x) }
{
    AllowedError::new(f).map_or(0, |error| error.inv(x))
}

// inv(qn) at the fraction q of n observations: max(1, ⌊2 · error · q · n⌋); 0 where one of the three is not allowed.
pub fn inv_at(f: Fraction, q: Fraction, n: u32) -> u64
    ensures { result ≡ within (is_error f && (is_phi q && leb n observations)) (inv_at f q n) }
{
    if f.is_error() && q.is_phi() && n <= Fraction::OBSERVATIONS {
        let top = 2 * u64::from(f.num) * u64::from(q.num) * u64::from(n);
        let whole = top / (u64::from(f.den) * u64::from(q.den));
        whole.max(1)
    } else {
        0
    }
}
