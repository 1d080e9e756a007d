// Opening a file by its ID.

#![tactic(auto)]

ghost use Rattle.std.specs.Prelude.{◌≡◌, not};
ghost use Rattle.image.specs.Stores.{zeros};
ghost use Rattle.answer.specs.declared.refusal.Refusal.TheVariants as refusal;
ghost use Rattle.answer.specs.Outcome.{unless};
ghost use Rattle.header.specs.Flags.{locked};
ghost use Rattle.volume.specs.Volume.{slot};
ghost use Rattle.volume.specs.Opening.{Recorded};
ghost use Rattle.chains.specs.Chains.{IsFirst};
ghost use Rattle.chains.specs.Finding.{Finds};
ghost use Rattle.open_file.specs.Opening.{find, chained, anyone, open_on, open_file, Tells, TellsPlaces, open_file_answer};

use answer::refusal::{Answer, Refusal};
use answer::types::{FileId, FileNumber, Lbn};
use chains::{chain_blocks, find_number, slot_in_use};
use header::fields::{h_fseq, segment};
use header::flags::is_locked;
use image::blocks::block;
use volume::{Places, Volume};

// A file that opens, on an opened volume.
#[derive(Clone, Copy)]
pub struct OpenedOn {
    // The LBN of its first header.
    pub header: Lbn,
    // How many blocks the file has.
    pub blocks: u32,
}

// A file that opens, for the calls that go on from there.
#[derive(Clone, Copy)]
pub struct OpenFile {
    pub volume: Volume,
    // The LBN of its first header.
    pub header: Lbn,
    // How many blocks the file has.
    pub blocks: u32,
}

// Finding the header: RELVOL, NUMBER, HEADER, SEQUENCE, SEGMENT.
fn find(image: &[u8], v: Volume, places: &Places, id: FileId) -> Answer<Lbn>
    requires { Recorded image.now v places.now }
    ensures { Finds (find image.now id) (slot image.now id.number) result }
{
    if id.volume != 0 {
        return Err(Refusal::Relvol);
    }
    let n = FileNumber(u32::from(id.number));
    let place = slot_in_use(image, v, places, n);
    let lbn = find_number(image, v.blocks, n, place)?;
    let h = block(image, lbn);
    if h_fseq(h) != id.sequence {
        return Err(Refusal::Sequence);
    }
    if segment(h) != 0 {
        return Err(Refusal::Segment);
    }
    Ok(lbn)
}

// Access to a file whose header was found: LOCKED.
#[tactic(auto, unfolding(answer::specs::Outcome::unless))]
fn access(h: &[u8]) -> Answer<()>
    ensures { result ≡ unless (not (locked h.now)) refusal.Locked }
{
    if is_locked(h) {
        return Err(Refusal::Locked);
    }
    Ok(())
}

// The chain of a file to which there is access: CHAIN.
fn open_chain(image: &[u8], v: Volume, places: &Places, id: FileId, lbn: Lbn) -> Answer<OpenedOn>
    requires { Recorded image.now v places.now × IsFirst image.now id.number × (lbn.0 ≡ slot image.now id.number) }
    ensures { Tells image.now id (chained image.now id) result }
{
    let n = FileNumber(u32::from(id.number));
    let blocks = chain_blocks(image, v, places, n, lbn).ok_or(Refusal::Chain)?;
    Ok(OpenedOn {
        header: lbn,
        blocks,
    })
}

// Opens a file on an opened volume.
pub fn open_on(image: &[u8], v: Volume, places: &Places, id: FileId) -> Answer<OpenedOn>
    requires { Recorded image.now v places.now }
    ensures { Tells image.now id (open_on anyone image.now id) result }
{
    let lbn = find(image, v, places, id)?;
    access(block(image, lbn))?;
    open_chain(image, v, places, id, lbn)
}

// Opens a file. The volume record that is handed on is what opening the volume gave; its places are left in the array lent for them.
pub fn open(image: &[u8], places: &mut Places, id: FileId) -> Answer<OpenFile>
    requires { places.old ≡ zeros 256 }
    ensures { TellsPlaces image.now id (open_file image.now id) result places.new }
{
    let volume = open_volume::open(image, places)?;
    let file = open_on(image, volume, places, id)?;
    Ok(OpenFile {
        volume,
        header: file.header,
        blocks: file.blocks,
    })
}

// The answer of opening a file.
#[tactic(auto, unfolding(image::specs::Stores::zeros, crate::specs::Opening::open_file_answer, answer::specs::Answers::answer_of))]
pub fn open_file(image: &[u8], id: FileId) -> Answer<u32>
    ensures { result ≡ open_file_answer image.now id }
{
    let mut places = [0u32; 256];
    let file = open(image, &mut places, id)?;
    Ok(file.blocks)
}
