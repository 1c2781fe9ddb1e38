// The definitions of the CKMS store's work on entries and block lengths are in specs/, and small readings of them in proofs/. Here stand the
// structs that the definitions name, and the function that ties the readings to code.
#![tactic(auto)]

ghost use Rattle.ckms_theory.specs.Readings.{Readings};

// A block, a place and r.
#[derive(Clone, Copy)]
pub struct Spot {
    pub block: usize,
    pub place: usize,
    pub rank: u32,
}

// A rank, and the value that is answered with it.
#[derive(Clone, Copy)]
pub struct Ranked {
    pub rank: u32,
    pub value: u32,
}

// Small readings of the definitions. This contract states them, so that none can go missing.
pub fn promises()
    ensures { Readings }
{}
