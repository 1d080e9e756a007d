// Extents of a file: from a VBN on, the blocks that lie one after the other on the volume.

#![tactic(auto)]

ghost use Rattle.std.specs.Prelude.{◌≡◌};
ghost use Rattle.extents.specs.Extents.{extent_answer};
ghost use Rattle.extents.specs.Claims.{ExtentsMap};

use answer::refusal::{Answer, Refusal};
use answer::types::{FileId, FileNumber, Run, Vbn};
use open_file::open;
use rows::{Row, row_of};

// The extent of a file from a VBN on.
#[tactic(auto, unfolding(image::specs::Stores::zeros))]
pub fn extent(image: &[u8], id: FileId, vbn: Vbn) -> Answer<Run>
    ensures { result ≡ extent_answer image.now id vbn.0 }
{
    let mut places = [0u32; 256];
    let file = open(image, &mut places, id)?;
    if vbn.0 == 0 || file.blocks < vbn.0 {
        return Err(Refusal::Vbn);
    }
    let n = FileNumber(u32::from(id.number));
    match row_of(image, file.volume, &places, n, file.header, vbn.0 - 1) {
        Row::Ahead(_) => Err(Refusal::Vbn),
        Row::Open(lbn, count) | Row::Ended(lbn, count) => Ok(Run { lbn, count }),
    }
}

// What an extent tells of the file's blocks, as one statement about the definitions.
#[tactic(auto, using(crate::proofs::ExtentLaws::extents_map))]
pub fn extents_map()
    ensures { ExtentsMap }
{}
