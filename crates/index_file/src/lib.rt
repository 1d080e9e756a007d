// The index file as opening finds it: header 1, the blocks that it must map, and the headers that follow it, each found in the part that those before
// it map.

#![tactic(auto)]

ghost use Rattle.std.specs.Prelude.{◌≡◌, true, ◌&&◌, ◌+◌, ◌<◌, ◌^◌, eqb, length};
ghost use Rattle.lists.specs.First.{below};
ghost use Rattle.image.specs.Stores.{zeros};
ghost use Rattle.pointers.specs.Pointers.{Fits, blocks_of};
ghost use Rattle.home.specs.Home.{blocks, home};
ghost use Rattle.volume.specs.Volume.{index_header};
ghost use Rattle.volume.specs.Opening.{sized, geometry, heads, Laid, Walked, index_lbn, index_mapped};

use answer::types::{FileNumber, Lbn};
use header::fields::{h_fseq, m_efnu, segment};
use image::blocks::block;
use pointers::{first_pointer, pointer_count, pointer_lbn, pointer_number};
use volume::{Places, Volume, is_marked, is_next, place_among, slot_vbn};
use whole::fault;

// Finds the headers of the index file, whose first is header 1, and answers how many they are; none where a link is bad, or where there are more than
// 256. Their LBNs are put into an array that is lent.
fn walk(image: &[u8], v: Volume, places: &mut Places) -> Option<usize>
    requires { (places.old ≡ zeros 256) × (sized image.now ≡ true) × (geometry image.now ≡ true) × Laid image.now v × (heads (blocks image.now) 1 (index_header image.now) ≡ true) }
    ensures { Walked image.now result places.new }
{
    let first = v.iblb.0 + v.ibsz;
    let mut at = Lbn(first);
    for k in 0..256 {
        places[k] = at.0;
        let h = block(image, at);
        let n = FileNumber(u32::from(m_efnu(h)));
        if n.0 == 0 {
            return Some(k + 1);
        }
        // The array is full, so where the link leads need not be looked for.
        if k == 255 {
            return None;
        }
        let used = is_marked(image, v.fmax, v.iblb, v.ibsz, n);
        if !used {
            return None;
        }
        let next = place_among(image, places, k + 1, slot_vbn(v.ibsz, n)).ok()?;
        if !is_next(h, block(image, next), v.blocks, n) {
            return None;
        }
        at = next;
    }
    None
}

// The same where header 1 is at hand. Most index files have no other, and that is seen without a walk.
pub fn headers_of(image: &[u8], v: Volume, h1: &[u8], places: &mut Places) -> Option<usize>
    requires { (places.old ≡ zeros 256) × (sized image.now ≡ true) × (geometry image.now ≡ true) × Laid image.now v × (heads (blocks image.now) 1 (index_header image.now) ≡ true) × (h1.now ≡ index_header image.now) }
    ensures { Walked image.now result places.new }
{
    if m_efnu(h1) == 0 {
        places[0] = v.iblb.0 + v.ibsz;
        return Some(1);
    }
    walk(image, v, places)
}

// The LBN of block i, from 0, of the index file.
#[tactic(auto, unfolding(volume::specs::Opening::index_lbn))]
fn index_lbn(home: Lbn, iblb: Lbn, i: u32) -> Lbn
    requires { iblb.0 + i < 2 ^ 32 }
    ensures { result.0 ≡ index_lbn home.0 iblb.0 i }
{
    match i {
        0 => Lbn(0),
        1 => home,
        _ => Lbn(iblb.0 + (i - 2)),
    }
}

// Whether the c blocks from an LBN on are blocks k, k + 1 and so on of the index file. From its block 2 on the LBNs of both rise by one, so the
// first such block decides for the rest.
#[tactic(auto, using(lists::proofs::BelowLaws::below_none, lists::proofs::BelowLaws::below_more))]
fn is_index_run(lbn: Lbn, c: u32, home: Lbn, iblb: Lbn, k: u32) -> bool
    requires { (lbn.0 + c < 2 ^ 32) × (iblb.0 + k + c < 2 ^ 32) }
    ensures { result ≡ below c (λ i. eqb (lbn.0 + i) (index_lbn home.0 iblb.0 (k + i))) }
{
    for i in 0..c {
        if lbn.0 + i != index_lbn(home, iblb, k + i).0 {
            return false;
        }
        if 2 <= k + i {
            return true;
        }
    }
    true
}

// Whether a header is that of number n, sequence n, segment 0, and whole, on a volume of so many blocks.
#[tactic(auto, unfolding(volume::specs::Opening::heads))]
pub fn is_head(h: &[u8], blocks: u32, n: FileNumber) -> bool
    requires { length h.now ≡ 512 }
    ensures { result ≡ heads blocks n.0 h.now }
{
    fault(h, blocks, n) == 0 && u32::from(h_fseq(h)) == n.0 && segment(h) == 0
}

// Whether the first m + 18 blocks of a header are those of the index file. Its pointers are walked in order, as far as these blocks go.
fn is_index_mapped(h: &[u8], home: Lbn, iblb: Lbn, m: u32) -> bool
    requires { Fits h.now × (iblb.0 < 2 ^ 31) × (m < 2 ^ 30) }
    ensures { result ≡ index_mapped home.0 iblb.0 m (blocks_of h.now) }
{
    let at = first_pointer(h);
    let number = pointer_number(h);
    let mut done: u32 = 0;
    for p in 0..number {
        if done == m + 18 {
            return true;
        }
        let lbn = pointer_lbn(h, at + 4 * p);
        let c = pointer_count(h, at + 4 * p).min(m + 18 - done);
        if !is_index_run(lbn, c, home, iblb, done) {
            return false;
        }
        done += c;
    }
    done == m + 18
}

// Whether header 1 is the index file's first, on a volume of so many blocks.
#[tactic(auto, using(crate::proofs::HeadLaws::heads_fits))]
pub fn is_indexed(h: &[u8], blocks: u32, home: Lbn, iblb: Lbn, m: u32) -> bool
    requires { (length h.now ≡ 512) × (iblb.0 < 2 ^ 31) × (m < 2 ^ 30) }
    ensures { result ≡ (heads blocks 1 h.now && index_mapped home.0 iblb.0 m (blocks_of h.now)) }
{
    is_head(h, blocks, FileNumber(1)) && is_index_mapped(h, home, iblb, m)
}
