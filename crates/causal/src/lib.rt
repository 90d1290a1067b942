// Which event could have influenced which: the stamps of two events say exactly what happened. These functions do nothing; each has a theorem for its promise.
#![tactic(auto)]

ghost use Rattle.causal.specs.Told.{StampsTell, CountsShown, ReadingPlaced};
ghost use Rattle.causal.specs.Witness.{EachSaid};

// Of the events of every list of steps from a fresh table.
pub fn stamps_tell()
    ensures { StampsTell }
{}

// And the stamp of a step's last event is what the table shows.
pub fn counts_shown()
    ensures { CountsShown }
{}

// And a reading's event is where its step is among the others.
pub fn reading_placed()
    ensures { ReadingPlaced }
{}

// And not for want of cases.
pub fn each_said()
    ensures { EachSaid }
{}
