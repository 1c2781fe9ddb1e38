// The definitions of the Greenwald-Khanna summary are in specs/, and the theorems about them in proofs/. This function ties the theorems to
// code: its contract states them, so a crate in which one of them is missing is not proved.
#![tactic(auto)]

ghost use Rattle.greenwald_khanna_theory.specs.Promises.{Promises};

pub fn promises()
    ensures { Promises }
{}
