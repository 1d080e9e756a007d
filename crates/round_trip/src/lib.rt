// That the conversions undo each other, as a claim that the check proves.

#![tactic(auto)]

ghost use Rattle.round_trip.specs.RoundTrip.{RoundTrip};

// Codes and characters, words and codes, names and texts.
pub fn conversions_undo_each_other()
    ensures { RoundTrip }
{}
