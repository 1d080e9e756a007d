// A file's VBNs.

#![tactic(auto)]

ghost use Rattle.std.specs.Prelude.{◌≡◌};
ghost use Rattle.mapping.specs.Mapping.{map_answer, block_of};

use answer::refusal::{Answer, Refusal};
use answer::types::{FileId, FileNumber, Lbn, Vbn};
use chains::lbn_at;
use open_file::open;

// The LBN of a file's VBN.
#[tactic(auto, unfolding(image::specs::Stores::zeros))]
pub fn map(image: &[u8], id: FileId, vbn: Vbn) -> Answer<Lbn>
    ensures { result ≡ map_answer image.now id vbn.0 }
{
    let mut places = [0u32; 256];
    let file = open(image, &mut places, id)?;
    if vbn.0 == 0 || file.blocks < vbn.0 {
        return Err(Refusal::Vbn);
    }
    let n = FileNumber(u32::from(id.number));
    Ok(lbn_at(image, file.volume, &places, n, file.header, vbn.0 - 1))
}

// The block of a file's VBN, as the image's own bytes; none where the VBN is refused.
#[tactic(auto, unfolding(crate::specs::Mapping::block_of))]
pub fn block(image: &[u8], id: FileId, vbn: Vbn) -> &[u8]
    ensures { result.now ≡ block_of image.now (map_answer image.now id vbn.0) }
{
    match map(image, id, vbn) {
        Ok(lbn) => image::blocks::block(image, lbn),
        Err(_) => &image[..0],
    }
}
