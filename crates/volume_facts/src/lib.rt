// What a volume says of itself: where its parts lie, and its label.

#![tactic(auto)]

ghost use Rattle.std.specs.Prelude.{◌≡◌, length};
ghost use Rattle.volume.specs.Opening.{Recorded};
ghost use Rattle.volume_facts.specs.Volumes.{geometry_of, geometry_answer, label_in, label_answer};

use crate::types::{Geometry, Label};
use answer::refusal::Answer;
use image::blocks::block;
use image::words::word_at;
use open_volume::open;
use volume::{Places, Volume, index_blocks, map_blocks};

pub mod types;
mod values;

// Where the parts of an opened volume lie.
fn geometry_on(image: &[u8], v: Volume, places: &Places) -> Geometry
    requires { Recorded image.now v places.now }
    ensures { result ≡ geometry_of image.now }
{
    let mapped = index_blocks(image, v, places);
    // Boot block, home and index map come before the slots.
    let first = 2 + v.ibsz;
    Geometry {
        blocks: v.blocks,
        home: v.home,
        ibsz: v.ibsz,
        iblb: v.iblb,
        fmax: v.fmax,
        slots: mapped - first,
        map: v.base,
        map_blocks: map_blocks(v.blocks),
        vlev: word_at(block(image, v.home), 12),
        index_headers: v.segments as u32,
    }
}

// Where the parts of a volume lie.
#[tactic(auto, unfolding(image::specs::Stores::zeros, crate::specs::Volumes::geometry_answer, answer::specs::Answers::answer_of))]
pub fn geometry(image: &[u8]) -> Answer<Geometry>
    ensures { result ≡ geometry_answer image.now }
{
    let mut places = [0u32; 256];
    let v = open(image, &mut places)?;
    Ok(geometry_on(image, v, &places))
}

// The label in a home block.
#[tactic(auto, unfolding(crate::specs::Volumes::label_in, crate::specs::Volumes::h_vnam, crate::specs::Volumes::h_vown, crate::specs::Volumes::h_vpro, crate::specs::Volumes::h_vcha, crate::specs::Volumes::h_dfpr))]
fn label_in(b: &[u8]) -> Label
    requires { length b.now ≡ 512 }
    ensures { result ≡ label_in b.now }
{
    Label {
        name1: word_at(b, 14),
        name2: word_at(b, 16),
        name3: word_at(b, 18),
        name4: word_at(b, 20),
        name5: word_at(b, 22),
        name6: word_at(b, 24),
        owner: word_at(b, 30),
        protection: word_at(b, 32),
        characteristics: word_at(b, 34),
        default_protection: word_at(b, 36),
    }
}

// The label of a volume.
#[tactic(auto, using(crate::proofs::VolumeLaws::home_read), unfolding(image::specs::Stores::zeros, crate::specs::Volumes::label_answer, answer::specs::Answers::answer_of))]
pub fn label(image: &[u8]) -> Answer<Label>
    ensures { result ≡ label_answer image.now }
{
    let mut places = [0u32; 256];
    let v = open(image, &mut places)?;
    Ok(label_in(block(image, v.home)))
}
