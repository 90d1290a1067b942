// The clocks run ahead of the counts. This function does nothing; it has the theorem for its promise.
#![tactic(auto)]

ghost use Rattle.ahead.specs.Ahead.{CountsNeverDecide};

// So demand 3 and the listing are as they were without counts.
pub fn counts_never_decide()
    ensures { CountsNeverDecide }
{}
