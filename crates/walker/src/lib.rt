// A walk over the records of a directory: a struct that keeps the image it reads and its record place, and thin functions over it. The work is
// done by `open_file` and `next_record`, which take plain data and slices.

#![tactic(auto)]

ghost use Rattle.std.specs.Prelude.{◌≡◌};
ghost use Rattle.open_file.specs.Opening.{open_file_answer};
ghost use Rattle.look_up.specs.LookUp.{next_record_answer};
ghost use Rattle.walker.specs.Walker.{place_after, Walks};

use answer::refusal::Answer;
use answer::types::FileId;
use look_up::{Step, next_record};
use open_file::open_file;

// A walk: the image that is read, the directory's ID, and the place of the record to go on from.
#[derive(Clone, Copy)]
pub struct Walker<'a> {
    pub image: &'a [u8],
    pub id: FileId,
    pub place: u32,
}

// A walk from the first record on. What opening it answers is told by `opening`, for an answer can hold no reference.
pub fn open<'a>(image: &'a [u8], id: FileId) -> Walker<'a>
    ensures { (result.image ≡ image.entry) × (result.id ≡ id) × (result.place ≡ 0) }
{
    Walker {
        image,
        id,
        place: 0,
    }
}

// The answer of opening the walk: that of opening its file.
pub fn opening<'a>(w: Walker<'a>) -> Answer<u32>
    ensures { result ≡ open_file_answer w.entry.image.now w.entry.id }
{
    open_file(w.image, w.id)
}

// The answer of the next step, with the walk left where it is.
pub fn step<'a>(w: Walker<'a>) -> Answer<Step>
    ensures { result ≡ next_record_answer w.entry.image.now w.entry.id w.entry.place }
{
    next_record(w.image, w.id, w.place)
}

// A step: the next record that is not empty, and the walk is moved past it; ABSENT where there is none, and the walk stays.
#[tactic(auto, unfolding(crate::specs::Walker::place_after))]
pub fn next<'s, 'a>(w: &'s mut Walker<'a>) -> Answer<Step>
    ensures { (result ≡ next_record_answer w.old.image.now w.old.id w.old.place)
        × (w.new.image ≡ w.old.image)
        × (w.new.id ≡ w.old.id)
        × (w.new.place ≡ place_after result w.old.place) }
{
    let step = next_record(w.image, w.id, w.place)?;
    w.place = step.next;
    Ok(step)
}

// A walk answers each record that is not empty, once and in order, and stays at its end; as one statement about the definitions.
#[tactic(auto, using(crate::proofs::WalkLaws::walks))]
pub fn a_walk_answers_all_and_stays_at_its_end()
    ensures { Walks }
{}
