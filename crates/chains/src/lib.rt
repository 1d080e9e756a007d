// The chain of a file's headers: its links, its blocks, and its members.

#![tactic(auto)]

ghost use Rattle.std.specs.Prelude.{◌≡◌, true, ◌<◌, length, get_or};
ghost use Rattle.header.specs.Fields.{m_efnu};
ghost use Rattle.home.specs.Home.{blocks};
ghost use Rattle.volume.specs.Volume.{slot, header, is_number};
ghost use Rattle.volume.specs.Opening.{open_volume, Recorded};
ghost use Rattle.chains.specs.Chains.{slot_in_use, good_link, link_from, NextHeader, good_chain, IsFirst, file_blocks, chain_blocks};
ghost use Rattle.chains.specs.Finding.{find_number, Finds};
ghost use Rattle.chains.specs.Members.{Lists};

use answer::refusal::{Answer, Refusal};
use answer::types::{FileNumber, Lbn};
use header::fields::m_efnu;
use image::blocks::block;
use pointers::{block_count, lbn_in};
use volume::{Places, Volume, is_in_use, is_next, slot_at, slot_of};
use whole::fault;

// The numbers of a chain's headers and the LBNs of their slots, in the chain's order; what lies past the count says nothing.
#[derive(Clone, Copy)]
pub struct Members {
    pub count: usize,
    pub numbers: [u32; 256],
    pub slots: [u32; 256],
}

// The chain of the file whose first header has number n and lies at this LBN, where each link of it is good.
pub fn members_of(image: &[u8], v: Volume, places: &Places, n: FileNumber, lbn: Lbn) -> Members
    requires { Recorded image.now v places.now × IsFirst image.now n.0 × (good_chain image.now n.0 ≡ true) × (lbn.0 ≡ slot image.now n.0) }
    ensures { Lists image.now n.0 result }
{
    let mut numbers = [0u32; 256];
    let mut slots = [0u32; 256];
    let mut number = n;
    let mut at = lbn;
    let mut count: usize = 0;
    // A loop, not a for: the chain goes on as its links say, and they end it within 256 headers.
    loop {
        numbers[count] = number.0;
        slots[count] = at.0;
        count += 1;
        let next = FileNumber(u32::from(m_efnu(block(image, at))));
        if next.0 == 0 {
            return Members {
                count,
                numbers,
                slots,
            };
        }
        at = slot_at(image, v, places, next);
        number = next;
    }
}

// Where the link of a header leads. Three states, so neither Option nor Result is plainer.
#[derive(Clone, Copy)]
pub enum Link {
    // Nowhere: the header is the last of its chain.
    End,
    // To the header at this LBN.
    To(Lbn),
    Bad,
}

// The slot of a number, if it is in use and has one.
#[tactic(auto, unfolding(crate::specs::Chains::slot_in_use, volume::specs::Volume::is_number, volume::specs::Volume::slot_of))]
pub fn slot_in_use(image: &[u8], v: Volume, places: &Places, n: FileNumber) -> Option<Lbn>
    requires { Recorded image.now v places.now }
    ensures { result ≡ slot_in_use image.now n.0 }
{
    if is_in_use(image, v, n) {
        slot_of(image, v, places, n)
    } else {
        None
    }
}

// Finding the header of a number on an opened volume of so many blocks, where its slot in use was looked for: NUMBER, HEADER. The compiler puts this
// into each of its callers; with the search for the slot it would be too large for that.
pub fn find_number(image: &[u8], total: u32, n: FileNumber, place: Option<Lbn>) -> Answer<Lbn>
    requires { (open_volume image.now ≡ Ok tt) × (total ≡ blocks image.now) × (place ≡ slot_in_use image.now n.0) }
    ensures { Finds (find_number image.now n.0) (slot image.now n.0) result }
{
    let lbn = place.ok_or(Refusal::Number)?;
    let unmet = fault(block(image, lbn), total, n);
    if unmet != 0 {
        return Err(Refusal::Header(unmet));
    }
    Ok(lbn)
}

// Where the link of header h leads.
pub fn follow(image: &[u8], v: Volume, places: &Places, h: &[u8]) -> Link
    requires { Recorded image.now v places.now }
    ensures { result ≡ link_from image.now h.now }
{
    let n = FileNumber(u32::from(m_efnu(h)));
    if n.0 == 0 {
        return Link::End;
    }
    match slot_in_use(image, v, places, n) {
        Some(lbn) if is_next(h, block(image, lbn), v.blocks, n) => Link::To(lbn),
        _ => Link::Bad,
    }
}

// The header of a number that is in use and has a slot.
pub fn header_of<'a>(image: &'a [u8], v: Volume, places: &Places, n: FileNumber) -> &'a [u8]
    requires { Recorded image.now v places.now × (is_number image.now n.0 ≡ true) }
    ensures { result.now ≡ header image.now n.0 }
{
    block(image, slot_at(image, v, places, n))
}

// The header that header h links to by M.EFNU, which is n and not 0, where its link is good.
pub fn next_header<'a>(
    image: &'a [u8],
    v: Volume,
    places: &Places,
    h: &[u8],
    n: FileNumber,
) -> &'a [u8]
    requires { Recorded image.now v places.now × (n.0 ≡ m_efnu h.now) × (m_efnu h.now ≡ 0 → ⊥) × (good_link image.now h.now ≡ true) }
    ensures { NextHeader image.now h.now result.now }
{
    header_of(image, v, places, n)
}

// How many blocks the chain of the file whose first header has number n and lies at this LBN covers, by one walk over its headers; nothing where a
// link is bad. Most headers have no link, and that is seen without a call.
pub fn chain_blocks(
    image: &[u8],
    v: Volume,
    places: &Places,
    n: FileNumber,
    lbn: Lbn,
) -> Option<u32>
    requires { Recorded image.now v places.now × IsFirst image.now n.0 × (lbn.0 ≡ slot image.now n.0) }
    ensures { result ≡ chain_blocks image.now n.0 }
{
    let mut h = block(image, lbn);
    let mut count: u32 = 0;
    loop {
        count += block_count(h);
        if m_efnu(h) == 0 {
            return Some(count);
        }
        match follow(image, v, places, h) {
            Link::End => return Some(count),
            Link::To(next) => h = block(image, next),
            Link::Bad => return None,
        }
    }
}

// The LBN of block i, from 0, of the file whose first header has number n and lies at this LBN, where each link of its chain is good. Headers before
// the one that has the block are stepped over by how many blocks they cover.
pub fn lbn_at(image: &[u8], v: Volume, places: &Places, n: FileNumber, lbn: Lbn, i: u32) -> Lbn
    requires { Recorded image.now v places.now × IsFirst image.now n.0 × (good_chain image.now n.0 ≡ true) × (i < length (file_blocks image.now n.0)) × (lbn.0 ≡ slot image.now n.0) }
    ensures { result.0 ≡ get_or (file_blocks image.now n.0) i 0 }
{
    let mut h = block(image, lbn);
    let mut left = i;
    loop {
        let count = block_count(h);
        if left < count {
            return lbn_in(h, left);
        }
        left -= count;
        h = next_header(image, v, places, h, FileNumber(u32::from(m_efnu(h))));
    }
}
