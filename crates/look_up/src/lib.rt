// The two calls on a directory: look-up by name, and the next record.

#![tactic(auto)]

ghost use Rattle.std.specs.Prelude.{◌≡◌};
ghost use Rattle.volume.specs.Volume.{slot, volume_of, places_of};
ghost use Rattle.open_file.specs.Opening.{open_file};
ghost use Rattle.directory.specs.Search.{record_count};
ghost use Rattle.look_up.specs.LookUp.{look_up_answer, next_record_answer};

use answer::refusal::{Answer, Refusal};
use answer::types::{FileId, FileNumber, Lbn, Name};
use directory::{entry_of_file, record_count, search_file};
use open_file::open;
use records::{Entry, Wanted};
use volume::{Places, Volume};

mod values;

// A look-up in a directory that opens, of so many records: NAME, ABSENT.
fn look_up_opened(
    image: &[u8],
    v: Volume,
    places: &Places,
    id: FileId,
    lbn: Lbn,
    count: u32,
    name: Name,
) -> Answer<FileId>
    requires { (open_file image.now id ≡ Ok tt) × (v ≡ volume_of image.now) × (count ≡ record_count image.now id.number) × (lbn.0 ≡ slot image.now id.number) × (places.now ≡ places_of image.now) }
    ensures { result ≡ look_up_answer image.now id name }
{
    if !names::is_proper(name) {
        return Err(Refusal::Name);
    }
    let n = FileNumber(u32::from(id.number));
    let r = search_file(image, v, places, n, lbn, 0, count, Wanted::Named(name));
    if count <= r {
        return Err(Refusal::Absent);
    }
    let e = entry_of_file(image, v, places, n, lbn, r);
    Ok(e.id)
}

// The ID beside a name in a directory.
#[tactic(auto, unfolding(image::specs::Stores::zeros))]
pub fn look_up(image: &[u8], id: FileId, name: Name) -> Answer<FileId>
    ensures { result ≡ look_up_answer image.now id name }
{
    let mut places = [0u32; 256];
    let file = open(image, &mut places, id)?;
    let count = record_count(file.blocks);
    look_up_opened(image, file.volume, &places, id, file.header, count, name)
}

// A step along the records.
#[derive(Clone, Copy)]
pub struct Step {
    // The record.
    pub entry: Entry,
    // The place to go on from.
    pub next: u32,
}

// A step in a directory that opens, of so many records: ABSENT.
fn next_opened(
    image: &[u8],
    v: Volume,
    places: &Places,
    id: FileId,
    lbn: Lbn,
    count: u32,
    place: u32,
) -> Answer<Step>
    requires { (open_file image.now id ≡ Ok tt) × (v ≡ volume_of image.now) × (count ≡ record_count image.now id.number) × (lbn.0 ≡ slot image.now id.number) × (places.now ≡ places_of image.now) }
    ensures { result ≡ next_record_answer image.now id place }
{
    if count <= place {
        return Err(Refusal::Absent);
    }
    let n = FileNumber(u32::from(id.number));
    let found = search_file(image, v, places, n, lbn, place, count, Wanted::Any);
    if count <= found {
        return Err(Refusal::Absent);
    }
    Ok(Step {
        entry: entry_of_file(image, v, places, n, lbn, found),
        next: found + 1,
    })
}

// The next record that is not empty, from a place on; ABSENT where there is none, and in a file that does not open.
#[tactic(auto, unfolding(image::specs::Stores::zeros))]
pub fn next_record(image: &[u8], id: FileId, place: u32) -> Answer<Step>
    ensures { result ≡ next_record_answer image.now id place }
{
    let mut places = [0u32; 256];
    let Ok(file) = open(image, &mut places, id) else {
        return Err(Refusal::Absent);
    };
    let count = record_count(file.blocks);
    next_opened(image, file.volume, &places, id, file.header, count, place)
}
