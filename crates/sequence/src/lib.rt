// What holds of all calls that read a file by an ID.

#![tactic(auto)]

ghost use Rattle.sequence.specs.Sequence.{SequenceAsked};

// An ID with another sequence number than the header's is refused by each of them, as one statement about the definitions.
pub fn other_sequence_is_refused()
    ensures { SequenceAsked }
{}
