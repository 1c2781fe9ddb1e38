// The readings of the customer's table that are to be proved, in one record. This function ties them to code: its contract states them all, so
// a crate in which one of them is missing or wrong is not proved.
#![tactic(auto)]

ghost use Rattle.readings.specs.Readings.{Readings};

pub fn readings()
    ensures { Readings }
{}
