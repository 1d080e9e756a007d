// The worked cases of 01 that are marked P.

#![tactic(auto)]

ghost use Rattle.worked_cases.specs.Cases.{Cases};

// The cases marked P, as one statement about the definitions.
pub fn worked_cases()
    ensures { Cases }
{}
