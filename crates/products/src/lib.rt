// The whole numbers that the modules take from a fraction: ⌊f·n⌋, p, the period, and the band of a delta.
// Every function takes any words: what no rule speaks of is answered by its definition in `fraction`, and nothing traps.
#![tactic(auto)]

ghost use Rattle.std.specs.Prelude.{◌≡◌};
ghost use Rattle.fraction.specs.Allowed.{is_epsilon, within};
ghost use Rattle.fraction.specs.Products.{floor_mul, p_of, period};
ghost use Rattle.fraction.specs.Band.{band};

use fraction::Fraction;

// The whole-number logarithm to base 2 of p - d + 1, by counting leading zeros. Past p the difference is 0, and so is the band.
pub fn band(p: u32, d: u32) -> u32
    ensures { result ≡ band p d }
{
    if p < d {
        return 0;
    }
    63 - (u64::from(p - d) + 1).leading_zeros()
}

// ⌊f · n⌋: a quantile's rank r = ⌊φn⌋ and a stream's e = ⌊εn⌋. A denominator of 0 gives 0.
pub fn floor_mul(f: Fraction, n: u32) -> u64
    ensures { result ≡ floor_mul f n }
{
    if f.den == 0 {
        return 0;
    }
    u64::from(f.num) * u64::from(n) / u64::from(f.den)
}

// p = ⌊2εn⌋ of an allowed ε; 0 of any other fraction.
pub fn p(f: Fraction, n: u32) -> u32
    ensures { result ≡ within (is_epsilon f) (p_of f n) }
{
    if f.is_epsilon() {
        return (2 * u64::from(f.num) * u64::from(n) / u64::from(f.den)) as u32;
    }
    0
}

// ⌊1/(2ε)⌋, the inserts between two compressions. A numerator of 0 gives 0.
pub fn period(f: Fraction) -> u32
    ensures { result ≡ period f }
{
    if f.num == 0 {
        return 0;
    }
    (u64::from(f.den) / (2 * u64::from(f.num))) as u32
}
