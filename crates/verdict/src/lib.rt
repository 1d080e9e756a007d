// The verdict, in its order, and its counts.

#![tactic(auto)]

ghost use Rattle.std.specs.Prelude.{◌≡◌, ◌&&◌, ◌≤◌, leb, length, MatchResult};
ghost use Rattle.image.specs.Stores.{zeros};
ghost use Rattle.answer.specs.Outcome.{◌then◌};
ghost use Rattle.home.specs.Home.{blocks};
ghost use Rattle.volume.specs.Volume.{fmax, volume_of, places_of};
ghost use Rattle.volume.specs.Opening.{Open, Recorded};
ghost use Rattle.marks.specs.Marks.{tallied};
ghost use Rattle.files.specs.Files.{files};
ghost use Rattle.links.specs.Links.{linked, links};
ghost use Rattle.covers.specs.Covered.{covered, twice, bad_map};
ghost use Rattle.bad_home.specs.Homes.{bad_home};
ghost use Rattle.verdict.specs.Verdict.{verdict, afterwards, header_marks, block_marks, counts_of, judge_answer};

use answer::refusal::{Answer, Refusal};
use bad_home::bad_home;
use covers::{bad_map, cover, twice};
use files::files;
use image::blocks::region;
use links::links;
use map_bits::{count_first_set, count_set};
use marks::count_marked;
use open_volume::open;
use volume::{Places, Volume, map_blocks};

mod values;

// The verdict's four counts.
#[derive(Clone, Copy)]
pub struct Counts {
    // N, the number of blocks.
    pub blocks: u32,
    // How many blocks are covered.
    pub claimed: u32,
    // How many bits of the storage map are set.
    pub free: u32,
    // How many file numbers are in use.
    pub headers: u32,
}

// TWICE, BADHOME and MAP, once FILES and LINKS are passed; and the block marks.
fn judge_blocks(image: &[u8], v: Volume, places: &Places, area: &mut [u8]) -> Answer<()>
    requires { Recorded image.now v places.now × (files image.now ≡ Ok tt) × (links image.now ≡ Ok tt) × (blocks image.now ≤ length area.old) }
    ensures { (result ≡ (twice image.now then bad_home image.now then bad_map image.now))
        × (area.new ≡ tallied (covered image.now) 0 (blocks image.now) area.old) }
{
    cover(image, v, places, area);
    twice(image, v, area)?;
    bad_home(image, v, places, area)?;
    bad_map(image, v, area)
}

// The five rules, in their order; and the marks.
fn judge_opened(
    image: &[u8],
    v: Volume,
    places: &Places,
    area: &mut [u8],
    headers: &mut [u8],
) -> Answer<()>
    requires { Recorded image.now v places.now × (blocks image.now ≤ length area.old) × (fmax image.now ≤ length headers.old) }
    ensures { (result ≡ (files image.now then links image.now then twice image.now then bad_home image.now then bad_map image.now))
        × (area.new ≡ afterwards (files image.now then links image.now) area.old (tallied (covered image.now) 0 (blocks image.now) area.old))
        × (headers.new ≡ afterwards (files image.now) headers.old (tallied (linked image.now) 1 (fmax image.now) headers.old)) }
{
    let single = files(image, v, places)?;
    links(image, v, places, single, headers)?;
    judge_blocks(image, v, places, area)
}

// Whether areas of these lengths have room for the block marks and the header marks of a volume.
fn is_roomy(v: Volume, area: usize, headers: usize) -> bool
    ensures { result ≡ (leb v.blocks area && leb v.fmax headers) }
{
    (v.blocks as usize) <= area && (v.fmax as usize) <= headers
}

// Opens a volume and judges it. The places of the volume record are left in the array lent for them.
pub fn judge_volume(
    image: &[u8],
    places: &mut Places,
    area: &mut [u8],
    headers: &mut [u8],
) -> Answer<Volume>
    requires { places.old ≡ zeros 256 }
    ensures judged { MatchResult result
        (λ v. (verdict image.now (length area.old) (length headers.old) ≡ Ok tt) × (v ≡ volume_of image.now) × (places.new ≡ places_of image.now))
        (λ r. verdict image.now (length area.old) (length headers.old) ≡ Err r) }
    ensures block_marks { area.new ≡ block_marks image.now area.old headers.old }
    ensures header_marks { headers.new ≡ header_marks image.now area.old headers.old }
{
    let v = open(image, places)?;
    if !is_roomy(v, area.len(), headers.len()) {
        return Err(Refusal::Work);
    }
    judge_opened(image, v, places, area, headers)?;
    Ok(v)
}

// The four counts of a volume whose blocks are marked.
fn count(image: &[u8], v: Volume, area: &[u8]) -> Counts
    requires { Open image.now v × (blocks image.now ≤ length area.now) × (area.now ≡ tallied (covered image.now) 0 (blocks image.now) area.now) }
    ensures { result ≡ counts_of image.now }
{
    let claimed = count_marked(area, v.blocks as usize);
    let free = count_set(region(image, v.base, map_blocks(v.blocks)));
    let headers = count_first_set(region(image, v.iblb, v.ibsz), v.fmax as usize);
    Counts {
        blocks: v.blocks,
        claimed,
        free,
        headers,
    }
}

// The verdict.
pub fn judge(image: &[u8], area: &mut [u8], headers: &mut [u8]) -> Answer<Counts>
    ensures { (result ≡ judge_answer image.now area.old headers.old)
        × (area.new ≡ block_marks image.now area.old headers.old)
        × (headers.new ≡ header_marks image.now area.old headers.old) }
{
    let mut places = [0u32; 256];
    let v = judge_volume(image, &mut places, area, headers)?;
    Ok(count(image, v, area))
}
