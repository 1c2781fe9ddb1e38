// The running mean of the CKMS: a record of f64, updated operation by operation in the Rust's order.
// Every function takes any words and any f64: nothing traps, and specs/ says what comes out. A u32 is cast `as f64`: the cast is proved to lose
// nothing, and `f64::from` would add a step to each proof.
#![tactic(auto)]

ghost use Rattle.std.specs.Prelude.{◌≡◌};
ghost use Rattle.mean.specs.Mean.{finite};
ghost use Rattle.mean.specs.Posts.{FirstPost, NextPost};
ghost use Rattle.mean.specs.Promises.{MeanPromises};

#[derive(Clone, Copy)]
pub struct Mean {
    pub value: f64,
}

impl Mean {
    // The mean of one value.
    pub fn first(v: u32) -> Mean
        ensures { FirstPost v result }
    {
        Mean { value: v as f64 }
    }

    // The mean with one value more, of n values in all: s + (v - s) / n.
    pub fn next(self, v: u32, n: u32) -> Mean
        ensures { NextPost self v n result }
    {
        let s = self.value;
        Mean {
            value: s + (v as f64 - s) / (n as f64),
        }
    }
}

// Whether x is a number: no infinity and no NaN.
pub fn is_finite(x: f64) -> bool
    ensures { result ≡ finite x }
{
    x.is_finite()
}

// What is proved about the definitions alone.
pub fn promises()
    ensures { MeanPromises }
{}
