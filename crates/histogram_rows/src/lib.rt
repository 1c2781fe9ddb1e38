// The histogram's work on lent bounds and counts: whether the bounds rise, which bins are asked for, and what their counts add up to.
#![tactic(auto)]

pub mod bounds;
pub mod counts;

// The upper bound of a bin, or a bound that is asked for. +Inf equals itself, and stands above every number.
#[derive(Clone, Copy, Debug, PartialEq, Eq, PartialOrd, Ord)]
pub enum Bound {
    Finite(u32),
    PosInf,
}
