// Volume V is accepted.

#![tactic(auto)]

ghost use Rattle.witness.specs.Witness.{AcceptedV};

// Volume V opens, is sound and is accepted, by computation on its bytes.
pub fn volume_v_is_accepted()
    ensures { AcceptedV }
{}
