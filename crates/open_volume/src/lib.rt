// Opening a volume: SIZE, HOME, GEOMETRY, INDEX, STORAGE, in this order.

#![tactic(auto)]

ghost use Rattle.std.specs.Prelude.{◌≡◌, ◌+◌, ◌≤◌, ◌<◌, ◌^◌, true, ◌&&◌, eqb, leb, length, get_or};
ghost use Rattle.image.specs.Words.{byte_at};
ghost use Rattle.image.specs.Blocks.{block};
ghost use Rattle.image.specs.Stores.{zeros};
ghost use Rattle.pointers.specs.Pointers.{Fits, blocks_of};
ghost use Rattle.home.specs.Home.{h_ibsz, h_iblb, h_fmax, blocks, home};
ghost use Rattle.volume.specs.Volume.{map_blocks};
ghost use Rattle.volume.specs.Opening.{sized, homed, geometry, alone, storage_mapped, Laid};
ghost use Rattle.open_volume.specs.Answer.{open_volume_answer, TellsVolume};

use answer::refusal::{Answer, Refusal};
use answer::types::{FileNumber, Lbn};
use header::fields::m_efnu;
use home::{h_fmax, h_iblb, h_ibsz, home_index, position};
use image::blocks::block;
use image::words::byte_or_zero;
use index_file::{headers_of, is_head, is_indexed};
use pointers::{block_count, first_pointer, lbn_in, pointer_count, pointer_number};
use volume::{Places, Volume, map_blocks};

// Whether the image has a size that a volume can have.
#[tactic(auto, unfolding(volume::specs::Opening::sized, home::specs::Home::blocks))]
fn is_sized(image: &[u8]) -> bool
    ensures { result ≡ sized image.now }
{
    let n = image.len() / 512;
    image.len() % 512 == 0 && 100 <= n && n <= 1044480
}

// Whether H.FMAX, H.IBSZ and H.IBLB of the home fit each other and a volume of n blocks.
fn has_geometry(b: &[u8], n: u32) -> bool
    requires { length b.now ≡ 512 }
    ensures { result ≡ (leb 16 (h_fmax b.now)
        && eqb (h_ibsz b.now) (map_blocks (h_fmax b.now))
        && leb (h_iblb b.now + h_ibsz b.now + 16) n) }
{
    let ibsz = u32::from(h_ibsz(b));
    let fmax = u32::from(h_fmax(b));
    16 <= fmax
        && ibsz == map_blocks(fmax)
        && u64::from(h_iblb(b).0) + u64::from(ibsz) + 16 <= u64::from(n)
}

// Whether it is so, and without extension.
#[tactic(auto, unfolding(volume::specs::Opening::alone))]
fn is_alone(h: &[u8], blocks: u32, n: FileNumber) -> bool
    requires { length h.now ≡ 512 }
    ensures { result ≡ alone blocks n.0 h.now }
{
    is_head(h, blocks, n) && m_efnu(h) == 0
}

// Whether a header maps exactly 1 + q blocks, by one pointer or by two of which the first maps one block.
#[tactic(auto, unfolding(volume::specs::Opening::storage_mapped))]
fn is_storage_mapped(h: &[u8], q: u32) -> bool
    requires { Fits h.now × (q < 2 ^ 31) }
    ensures { result ≡ storage_mapped q h.now }
{
    let number = pointer_number(h);
    block_count(h) == 1 + q
        && (number == 1 || number == 2 && pointer_count(h, first_pointer(h)) == 1)
}

// Whether header 2 is the storage map file's, on a volume of so many blocks.
#[tactic(auto, using(crate::proofs::OpenLaws::alone_fits))]
fn is_stored(image: &[u8], h: &[u8], blocks: u32) -> bool
    requires { (length h.now ≡ 512) × (blocks ≤ 1044480) }
    ensures { result ≡ (alone blocks 2 h.now
        && storage_mapped (map_blocks blocks) h.now
        && eqb (byte_at (block image.now (get_or (blocks_of h.now) 0 0)) 3) (map_blocks blocks)) }
{
    let q = map_blocks(blocks);
    is_alone(h, blocks, FileNumber(2))
        && is_storage_mapped(h, q)
        && u32::from(byte_or_zero(block(image, lbn_in(h, 0)), 3)) == q
}

// Opens a volume of which all but the storage map is known.
fn open_laid_out(image: &[u8], v: Volume, places: &mut Places) -> Answer<Volume>
    requires { (sized image.now ≡ true) × (homed image.now ≡ true) × (geometry image.now ≡ true) × Laid image.now v × (places.old ≡ zeros 256) }
    ensures { TellsVolume image.now result places.new }
{
    let first = v.iblb.0 + v.ibsz;
    let h1 = block(image, Lbn(first));
    if !is_indexed(h1, v.blocks, v.home, v.iblb, v.ibsz) {
        return Err(Refusal::Index);
    }
    let segments = headers_of(image, v, h1, places).ok_or(Refusal::Index)?;
    let h2 = block(image, Lbn(first + 1));
    if !is_stored(image, h2, v.blocks) {
        return Err(Refusal::Storage);
    }
    let base = lbn_in(h2, 1);
    Ok(Volume {
        base,
        segments,
        ..v
    })
}

// Opens a volume of n blocks whose home lies at a known LBN.
#[tactic(auto, using(crate::proofs::OpenLaws::opening), unfolding(volume::specs::Volume::ibsz, volume::specs::Volume::iblb, volume::specs::Volume::fmax, volume::specs::Opening::geometry))]
fn open_at(image: &[u8], n: u32, at: Lbn, places: &mut Places) -> Answer<Volume>
    requires { (sized image.now ≡ true) × (homed image.now ≡ true) × (n ≡ blocks image.now) × (at.0 ≡ home image.now) × (places.old ≡ zeros 256) }
    ensures { TellsVolume image.now result places.new }
{
    let b = block(image, at);
    if !has_geometry(b, n) {
        return Err(Refusal::Geometry);
    }
    open_laid_out(
        image,
        Volume {
            blocks: n,
            home: at,
            ibsz: u32::from(h_ibsz(b)),
            iblb: h_iblb(b),
            fmax: u32::from(h_fmax(b)),
            base: Lbn(0),
            segments: 0,
        },
        places,
    )
}

// Opens a volume. Where it opens, the volume record is what is answered and, in the array lent for them, the places of the index file's headers.
#[tactic(auto, using(crate::proofs::OpenLaws::opening), unfolding(volume::specs::Opening::homed, home::specs::Home::home, home::specs::Home::blocks, home::specs::Home::positions))]
pub fn open(image: &[u8], places: &mut Places) -> Answer<Volume>
    requires { places.old ≡ zeros 256 }
    ensures { TellsVolume image.now result places.new }
{
    if !is_sized(image) {
        return Err(Refusal::Size);
    }
    let blocks = (image.len() / 512) as u32;
    let i = home_index(image, blocks).ok_or(Refusal::Home)?;
    open_at(image, blocks, position(i), places)
}

// The answer of opening a volume.
#[tactic(auto, unfolding(image::specs::Stores::zeros, crate::specs::Answer::open_volume_answer, answer::specs::Answers::answer_of, volume::specs::Volume::volume_of))]
pub fn open_volume(image: &[u8]) -> Answer<Lbn>
    ensures { result ≡ open_volume_answer image.now }
{
    let mut places = [0u32; 256];
    let v = open(image, &mut places)?;
    Ok(v.home)
}
