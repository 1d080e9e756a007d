// What the header of a file number in use says: its place in a chain, its name, its retrieval pointers.

#![tactic(auto)]

ghost use Rattle.std.specs.Prelude.{◌≡◌, ◌≤◌, length};
ghost use Rattle.header.specs.Fields.{h_idof};
ghost use Rattle.volume.specs.Opening.{Recorded};
ghost use Rattle.header_facts.specs.Headers.{facts_of, header_answer, pointer_answer};

use crate::types::Header;
use answer::refusal::{Answer, Refusal};
use answer::types::{FileNumber, Run};
use chains::{find_number, slot_in_use};
use header::fields::{h_fseq, m_efnu, m_efsq, segment};
use header::ident::ident_name;
use image::blocks::block;
use open_volume::open;
use pointers::{first_pointer, pointer_count, pointer_lbn, pointer_number};
use volume::{Places, Volume};

pub mod types;
mod values;

// What a header says that has all of its ident area.
#[tactic(auto, unfolding(crate::specs::Headers::facts_of))]
fn facts_of(h: &[u8]) -> Header
    requires { (length h.now ≡ 512) × (h_idof h.now ≤ 250) }
    ensures { result ≡ facts_of h.now }
{
    Header {
        sequence: h_fseq(h),
        segment: segment(h),
        next: m_efnu(h),
        next_sequence: m_efsq(h),
        pointers: pointer_number(h) as u32,
        name: ident_name(h),
    }
}

// What the header of a file number says, on an opened volume.
fn header_on(image: &[u8], v: Volume, places: &Places, n: FileNumber) -> Answer<Header>
    requires { Recorded image.now v places.now }
    ensures { result ≡ header_answer image.now n.0 }
{
    let place = slot_in_use(image, v, places, n);
    let lbn = find_number(image, v.blocks, n, place)?;
    Ok(facts_of(block(image, lbn)))
}

// What the header of a file number in use says.
#[tactic(auto, unfolding(image::specs::Stores::zeros))]
pub fn header(image: &[u8], n: FileNumber) -> Answer<Header>
    ensures { result ≡ header_answer image.now n.0 }
{
    let mut places = [0u32; 256];
    let v = open(image, &mut places)?;
    header_on(image, v, &places, n)
}

// Retrieval pointer p, from 0, of the header of a file number, on an opened volume; ABSENT past the last.
fn pointer_on(image: &[u8], v: Volume, places: &Places, n: FileNumber, p: u32) -> Answer<Run>
    requires { Recorded image.now v places.now }
    ensures { result ≡ pointer_answer image.now n.0 p }
{
    let place = slot_in_use(image, v, places, n);
    let lbn = find_number(image, v.blocks, n, place)?;
    let h = block(image, lbn);
    let p = p as usize;
    if pointer_number(h) <= p {
        return Err(Refusal::Absent);
    }
    let at = first_pointer(h) + 4 * p;
    Ok(Run {
        lbn: pointer_lbn(h, at),
        count: pointer_count(h, at),
    })
}

// Retrieval pointer p, from 0, of the header of a file number in use; ABSENT past the last.
#[tactic(auto, unfolding(image::specs::Stores::zeros))]
pub fn pointer(image: &[u8], n: FileNumber, p: u32) -> Answer<Run>
    ensures { result ≡ pointer_answer image.now n.0 p }
{
    let mut places = [0u32; 256];
    let v = open(image, &mut places)?;
    pointer_on(image, v, &places, n, p)
}
