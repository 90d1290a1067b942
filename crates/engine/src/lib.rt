// The engine over every list of steps: what its steps leave in a lent table is what the rules say. These functions do nothing; each has a theorem for its promise.
#![tactic(auto)]

ghost use Rattle.lamport.specs.Starred.{starred};
ghost use Rattle.engine.specs.Engine.{StepsFollow, EngineDemanded, OneHolds, Answered, HolderTold, StampKept, ReadingsTold};

// The answers and tables of any steps are the rules' answers and tables.
pub fn steps_follow()
    ensures { StepsFollow }
{}

// All of Demand3, of what is read in the table that `fresh` makes.
pub fn demand_3()
    ensures { EngineDemanded }
{}

// At most one bench holds in the table.
pub fn one_holds()
    ensures { OneHolds }
{}

// A listing's line names the one that holds.
pub fn holder_told()
    ensures { HolderTold }
{}

// The twelve starred cases, as the engine answers them.
pub fn starred_answered()
    ensures { Answered starred }
{}

// The counts that are handed out after a `mark` are those of that event.
pub fn stamp_kept()
    ensures { StampKept }
{}

// So the comparison of two readings' stamps tells which of them could have influenced the other.
pub fn readings_told()
    ensures { ReadingsTold }
{}
