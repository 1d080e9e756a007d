// What an opened file says of itself: owner, protection, flags, and the attributes that FCS keeps.

#![tactic(auto)]

ghost use Rattle.std.specs.Prelude.{◌≡◌, length};
ghost use Rattle.file_facts.specs.Files.{attributes_of, attributes_answer};

use crate::types::Attributes;
use answer::refusal::Answer;
use answer::types::{FileId, Vbn};
use header::attributes::{end_of, f_efbk, long_at};
use image::blocks::block;
use image::words::word_at;
use open_file::open;

pub mod types;
mod values;

// What the first header of a file of so many blocks says.
#[tactic(auto, unfolding(crate::specs::Files::attributes_of, header::specs::Fields::h_fown, header::specs::Fields::h_fpro, header::specs::Fields::h_fcha, header::specs::Attributes::f_rtyp_ratt, header::specs::Attributes::f_rsiz, header::specs::Attributes::f_hibk, header::specs::Attributes::f_efbk, header::specs::Attributes::f_ffby))]
fn attributes_of(h: &[u8], count: u32) -> Attributes
    requires { length h.now ≡ 512 }
    ensures { result ≡ attributes_of h.now count }
{
    Attributes {
        blocks: count,
        end: end_of(h, count),
        owner: word_at(h, 8),
        protection: word_at(h, 10),
        flags: word_at(h, 12),
        record_type: word_at(h, 14),
        record_size: word_at(h, 16),
        highest: Vbn(long_at(h, 18)),
        end_block: f_efbk(h),
        first_free: word_at(h, 26),
    }
}

// What a file says of itself.
#[tactic(auto, unfolding(image::specs::Stores::zeros))]
pub fn attributes(image: &[u8], id: FileId) -> Answer<Attributes>
    ensures { result ≡ attributes_answer image.now id }
{
    let mut places = [0u32; 256];
    let file = open(image, &mut places, id)?;
    Ok(attributes_of(block(image, file.header), file.blocks))
}
