// Delete: the headers of a file's chain given up, and the blocks that they cover made free.

#![tactic(auto)]

ghost use Rattle.std.specs.Prelude.{◌≡◌, true, ◌≤◌, length};
ghost use Rattle.volume.specs.Volume.{slot};
ghost use Rattle.volume.specs.Opening.{Recorded};
ghost use Rattle.chains.specs.Chains.{chain_of, good_chain, IsFirst};
ghost use Rattle.verdict.specs.Verdict.{afterwards, block_marks, header_marks};
ghost use Rattle.sound.specs.Sound.{Safe};
ghost use Rattle.update.specs.Delete.{delete_answer, without_numbers, delete_image, delete_tests};

use answer::refusal::{Answer, Refusal};
use answer::types::{FileId, FileNumber, Lbn};
use chains::members_of;
use delete_steps::{clear_index, clear_slots, free_headers};
use open_file::open_on;
use verdict::judge_volume;
use volume::{Places, Volume, map_blocks};

// The chain of the file whose first header has number n and lies at this LBN given up: its index bits, its blocks, its slots. The slots come last, for
// the pointers stand in them.
fn delete_chain(image: &mut [u8], v: Volume, places: &Places, n: FileNumber, lbn: Lbn)
    requires { Recorded image.old v places.now × Safe image.old × IsFirst image.old n.0 × (good_chain image.old n.0 ≡ true) × (6 ≤ n.0) × (lbn.0 ≡ slot image.old n.0) }
    ensures { image.new ≡ without_numbers image.old (chain_of image.old n.0) }
{
    let m = members_of(image, v, places, n, lbn);
    let q = map_blocks(v.blocks);
    clear_index(image, v.iblb, v.ibsz, m.numbers, m.count);
    free_headers(image, v.base, q, m.slots, m.count);
    clear_slots(image, m.slots, m.count);
}

// Deletes a file on a volume that opens and is safe.
pub fn delete_on(image: &mut [u8], v: Volume, places: &Places, id: FileId) -> Answer<()>
    requires { Recorded image.old v places.now × Safe image.old }
    ensures { (result ≡ delete_tests image.old id)
        × (image.new ≡ afterwards (delete_tests image.old id) image.old (without_numbers image.old (chain_of image.old id.number))) }
{
    let file = open_on(image, v, places, id)?;
    let n = FileNumber(u32::from(id.number));
    if n.0 <= 5 {
        return Err(Refusal::Known);
    }
    delete_chain(image, v, places, n, file.header);
    Ok(())
}

// Judges the volume, and deletes a file.
pub fn delete(image: &mut [u8], id: FileId, area: &mut [u8], headers: &mut [u8]) -> Answer<()>
    ensures { (result ≡ delete_answer image.old id (length area.old) (length headers.old))
        × (image.new ≡ delete_image image.old id (length area.old) (length headers.old))
        × (area.new ≡ block_marks image.old area.old headers.old)
        × (headers.new ≡ header_marks image.old area.old headers.old) }
{
    let mut places = [0u32; 256];
    let v = judge_volume(image, &mut places, area, headers)?;
    delete_on(image, v, &places, id)
}
