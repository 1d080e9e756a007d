// Create: the header of a new file and its index bit, under the lowest spare number.

#![tactic(auto)]

ghost use Rattle.std.specs.Prelude.{◌≡◌, ◌+◌, ◌*◌, ◌≤◌, length};
ghost use Rattle.image.specs.Stores.{put_block};
ghost use Rattle.answer.specs.Answers.{answer_of};
ghost use Rattle.fresh_header.specs.Fresh.{fresh_header};
ghost use Rattle.volume.specs.Opening.{Recorded};
ghost use Rattle.verdict.specs.Verdict.{afterwards, header_marks, block_marks};
ghost use Rattle.update.specs.Create.{new_id, create_answer, with_file, create_image, create_tests};
ghost use Rattle.spare_number.specs.SpareNumber.{spare_number};

use answer::refusal::{Answer, Refusal};
use answer::types::{FileId, FileNumber, Lbn, Name};
use fresh_header::put_fresh;
use header::fields::h_fseq;
use image::blocks::block;
use names::is_proper;
use spare_number::spare_number;
use stores::put_map_bit;
use verdict::judge_volume;
use volume::{Places, Volume, slot_at};

// The block with an LBN made the header of a new file.
fn put_header(image: &mut [u8], lbn: Lbn, id: FileId, owner: u16, protection: u16, name: Name)
    requires { 512 * lbn.0 + 512 ≤ length image.old }
    ensures { image.new ≡ put_block image.old lbn.0 (fresh_header id.number id.sequence owner protection name) }
{
    let from = 512 * (lbn.0 as usize);
    let to = from + 512;
    put_fresh(
        &mut image[from..to],
        id.number,
        id.sequence,
        owner,
        protection,
        name,
    );
}

// A new file under the number n: its header in the slot of n, and then the index bit of n.
fn put_file(
    image: &mut [u8],
    v: Volume,
    places: &Places,
    n: FileNumber,
    name: Name,
    owner: u16,
    protection: u16,
) -> FileId
    requires { Recorded image.old v places.now × (n.0 ≡ spare_number image.old) × (n.0 ≤ v.fmax) }
    ensures { (result ≡ new_id image.old) × (image.new ≡ with_file image.old name owner protection) }
{
    let lbn = slot_at(image, v, places, n);
    let id = FileId {
        number: n.0 as u16,
        sequence: h_fseq(block(image, lbn)) + 1,
        volume: 0,
    };
    put_header(image, lbn, id, owner, protection, name);
    put_map_bit(image, v.iblb, v.ibsz, n.0 - 1, 1);
    id
}

// Create on a volume that is judged already: NAME, NONUMBER, and then the file. It asks no more of the image than that it opens.
pub fn create_on(
    image: &mut [u8],
    v: Volume,
    places: &Places,
    name: Name,
    owner: u16,
    protection: u16,
) -> Answer<FileId>
    requires { Recorded image.old v places.now }
    ensures { (result ≡ answer_of (create_tests image.old name) (new_id image.old))
        × (image.new ≡ afterwards (create_tests image.old name) image.old (with_file image.old name owner protection)) }
{
    if !is_proper(name) {
        return Err(Refusal::Name);
    }
    let n = spare_number(image, v, places).ok_or(Refusal::Nonumber)?;
    Ok(put_file(image, v, places, n, name, owner, protection))
}

// Create. The marks are those of the image before it.
pub fn create(
    image: &mut [u8],
    name: Name,
    owner: u16,
    protection: u16,
    area: &mut [u8],
    headers: &mut [u8],
) -> Answer<FileId>
    ensures { (result ≡ create_answer image.old name (length area.old) (length headers.old))
        × (image.new ≡ create_image image.old name owner protection (length area.old) (length headers.old))
        × (area.new ≡ block_marks image.old area.old headers.old)
        × (headers.new ≡ header_marks image.old area.old headers.old) }
{
    let mut places = [0u32; 256];
    let v = judge_volume(image, &mut places, area, headers)?;
    create_on(image, v, &places, name, owner, protection)
}
