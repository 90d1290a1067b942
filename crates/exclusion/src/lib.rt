// Demand 3, of lamport's rules: specs/Demand.antt states it. These functions do nothing; each has a theorem for its promise.
#![tactic(auto)]

ghost use Rattle.exclusion.specs.Demand.{Demanded};
ghost use Rattle.exclusion.specs.Witness.{Witnessed};

// All of Demand3, of every fresh table and every list of steps.
pub fn demand_3()
    ensures { Demanded }
{}

// And not for want of cases.
pub fn witnesses()
    ensures { Witnessed }
{}
