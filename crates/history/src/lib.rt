// Lists of create, extend and delete calls: what every list of them keeps. Each claim is a statement about the definitions, as a function that asks
// nothing.

#![tactic(auto)]

ghost use Rattle.history.specs.Claims.{Demand3};
ghost use Rattle.history.specs.Writing.{RefusedKeeps, WritesBounded, VolumeSteady};
ghost use Rattle.history.specs.ReadBack.{CallsReadBack};

// Demand 3: after every list of calls on an accepted image, refused ones included, the image is accepted, and every file above 5 that no extend or delete
// of the list names has its blocks, in their order and with their bytes.
pub fn every_list_keeps_the_volume()
    ensures { Demand3 }
{}

// A refused call changes no byte of the image.
pub fn refused_calls_change_nothing()
    ensures { RefusedKeeps }
{}

// A call on an accepted image writes only the blocks that the rules name.
pub fn calls_write_what_the_rules_name()
    ensures { WritesBounded }
{}

// No list of calls on an accepted image changes how the volume opens, and the sequence word of no slot falls.
pub fn the_volume_stays_steady()
    ensures { VolumeSteady }
{}

// What create, extend and delete leave on an accepted image reads back: the new file, the new blocks, and the ID that is spent.
pub fn calls_read_back()
    ensures { CallsReadBack }
{}
