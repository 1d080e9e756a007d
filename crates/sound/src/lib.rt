// What sound means, and what holds of every image by that: statements about the definitions, each as a function that asks nothing.

#![tactic(auto)]

ghost use Rattle.sound.specs.Claims.{VerdictExact, CountsAdd, BlocksApart};

// The verdict, with work areas that are long enough, answers DONE exactly where the image opens and is sound.
pub fn accepts_exactly_the_sound()
    ensures { VerdictExact }
{}

// Covered blocks and free bits of a sound image add up to N.
pub fn claimed_and_free_add_up()
    ensures { CountsAdd }
{}

// All blocks of all files of an image that opens and is safe are apart. A sound image is safe.
pub fn blocks_are_apart()
    ensures { BlocksApart }
{}
