// An opened volume: its record, the blocks of its index file, the slots of file headers, and which file numbers are in use.

#![tactic(auto)]

ghost use Rattle.std.specs.Prelude.{◌≡◌, ◌+◌, ◌-◌, ◌≤◌, ◌<◌, ◌^◌, length, take, true};
ghost use Rattle.header.specs.Fields.{m_efnu};
ghost use Rattle.image.specs.Blocks.{block};
ghost use Rattle.pointers.specs.Pointers.{place_in};
ghost use Rattle.home.specs.Home.{blocks};
ghost use Rattle.volume.specs.Volume.{follows, index, ibsz, iblb, fmax, slot_vbn, slot, has_slot, slot_of, in_use, map_blocks};
ghost use Rattle.pointers.specs.Pointers.{flat};
ghost use Rattle.volume.specs.Opening.{FirstFit, Recorded, HasIndexMap, Open};

use answer::types::{FileNumber, Lbn, Vbn};
use header::fields::{h_fseq, m_efsq, segment};
use image::bits::bit_at;
use image::blocks::{block, region};
use pointers::{block_count, place_of};
use whole::fault;

// Whether `next` is the header that header h links to by M.EFNU, which is n: its sequence, a segment number one higher, and whole.
#[tactic(auto, unfolding(crate::specs::Volume::follows))]
pub fn is_next(h: &[u8], next: &[u8], blocks: u32, n: FileNumber) -> bool
    requires { (length next.now ≡ 512) × (n.0 ≡ m_efnu h.now) }
    ensures { result ≡ follows blocks h.now next.now }
{
    h_fseq(next) == m_efsq(h)
        && u16::from(segment(next)) == u16::from(segment(h)) + 1
        && fault(next, blocks, n) == 0
}

// The VBN of the index file that is the slot of a file number.
pub fn slot_vbn(m: u32, n: FileNumber) -> Vbn
    requires { 2 + m + n.0 < 2 ^ 32 }
    ensures { result.0 ≡ slot_vbn m n.0 }
{
    Vbn(2 + m + n.0)
}

// Where a VBN lies in the blocks of the first k of the headers at these LBNs; or how far it lies past the last.
pub fn place_among(image: &[u8], at: &Places, k: usize, vbn: Vbn) -> Result<Lbn, u32>
    requires { (length at.now ≡ 256) × (k ≤ 256) × FirstFit image.now at.now k × (1 ≤ vbn.0) }
    ensures { result ≡ place_in (flat (block image.now) (take k at.now)) (vbn.0 - 1) }
{
    let mut left = vbn.0 - 1;
    for lbn in &at[..k] {
        match place_of(block(image, Lbn(*lbn)), left) {
            Ok(found) => return Ok(found),
            Err(more) => left = more,
        }
    }
    Err(left)
}

// How many blocks the index file has.
#[tactic(auto, using(crate::proofs::VolumeLaws::segments_few))]
pub fn index_blocks(image: &[u8], v: Volume, places: &Places) -> u32
    requires { Recorded image.now v places.now }
    ensures { result ≡ length (index image.now) }
{
    let mut sum: u32 = 0;
    for lbn in &places[..v.segments] {
        sum += block_count(block(image, Lbn(*lbn)));
    }
    sum
}

// The other part of the volume record: the LBN of each header of the index file, in the order of their segments; 0 past the last. It is large, so
// it is lent to the calls that look for a slot, and never copied.
pub type Places = [u32; 256];

// The part of the volume record that goes by value: what calls on an opened volume need to know of it.
#[derive(Clone, Copy)]
pub struct Volume {
    // N, the number of blocks.
    pub blocks: u32,
    // Where the home lies.
    pub home: Lbn,
    // H.IBSZ, which is m.
    pub ibsz: u32,
    // H.IBLB, where the index map begins.
    pub iblb: Lbn,
    // H.FMAX, the highest file number.
    pub fmax: u32,
    // Where the storage map's bits begin.
    pub base: Lbn,
    // How many headers the index file has.
    pub segments: usize,
}

// How many blocks of bits the storage map of a volume of so many blocks has.
#[tactic(auto, unfolding(crate::specs::Volume::map_blocks))]
pub fn map_blocks(blocks: u32) -> u32
    ensures { (result ≡ map_blocks blocks) × (result ≤ 1048576) }
{
    blocks.div_ceil(4096)
}

// Whether a file number is in use, by H.FMAX, H.IBLB and H.IBSZ alone.
#[tactic(auto, unfolding(crate::specs::Volume::in_use, crate::specs::Volume::index_map))]
pub fn is_marked(image: &[u8], most: u32, from: Lbn, m: u32, n: FileNumber) -> bool
    requires { (most ≡ fmax image.now) × (from.0 ≡ iblb image.now) × (m ≡ ibsz image.now) × HasIndexMap image.now }
    ensures { result ≡ in_use image.now n.0 }
{
    if n.0 < 1 || most < n.0 {
        return false;
    }
    let map = region(image, from, m);
    bit_at(map, (n.0 - 1) as usize) == 1
}

// Whether a file number is in use.
pub fn is_in_use(image: &[u8], v: Volume, n: FileNumber) -> bool
    requires { Open image.now v }
    ensures { result ≡ in_use image.now n.0 }
{
    is_marked(image, v.fmax, v.iblb, v.ibsz, n)
}

// The slot of a file number; none past the blocks of the index file, which are at most 8,323,072: 256 headers of 32,512.
#[tactic(auto, using(crate::proofs::VolumeLaws::open_room))]
pub fn slot_of(image: &[u8], v: Volume, places: &Places, n: FileNumber) -> Option<Lbn>
    requires { Recorded image.now v places.now }
    ensures { result ≡ slot_of image.now n.0 }
{
    if 8323072 < n.0 {
        return None;
    }
    place_among(image, places, v.segments, slot_vbn(v.ibsz, n)).ok()
}

// The LBN of the slot of a file number that has one.
#[tactic(auto, using(crate::proofs::VolumeLaws::slot_some))]
pub fn slot_at(image: &[u8], v: Volume, places: &Places, n: FileNumber) -> Lbn
    requires { Recorded image.now v places.now × (has_slot image.now n.0 ≡ true) }
    ensures { result.0 ≡ slot image.now n.0 }
{
    slot_of(image, v, places, n).unwrap()
}
