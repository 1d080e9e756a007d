// TWICE, BADHOME and MAP: what the verdict asks of the blocks that headers in use cover.

#![tactic(auto)]

ghost use Rattle.std.specs.Prelude.{◌≡◌, cond, [], ◌≤◌, length};
ghost use Rattle.pointers.specs.Pointers.{Fits, blocks_of};
ghost use Rattle.home.specs.Home.{blocks};
ghost use Rattle.volume.specs.Volume.{header, in_use};
ghost use Rattle.volume.specs.Opening.{open_volume, Open, Recorded};
ghost use Rattle.slots.specs.Slots.{Stands};
ghost use Rattle.marks.specs.Marks.{tallied, raised_by};
ghost use Rattle.files.specs.Files.{files};
ghost use Rattle.covers.specs.Covered.{Ends, covered, twice, bad_map};

use answer::refusal::{Answer, Refusal};
use answer::types::FileNumber;
use image::bits::bit_at;
use image::blocks::{block, region};
use map_marks::first_unlike;
use marks::{clear_first, first_twice, raise_run};
use pointers::{first_pointer, pointer_count, pointer_lbn, pointer_number};
use slots::{SlotRun, next_run, slot_run};
use volume::{Places, Volume, map_blocks};

// The marks of the blocks that a header covers raised, by one walk over its pointers.
pub fn raise_header(h: &[u8], area: &mut [u8])
    requires { Fits h.now × Ends (length area.old) h.now }
    ensures { area.new ≡ raised_by area.old (blocks_of h.now) }
{
    let at = first_pointer(h);
    let number = pointer_number(h);
    for p in 0..number {
        let lbn = pointer_lbn(h, at + 4 * p);
        let c = pointer_count(h, at + 4 * p);
        raise_run(area, lbn.0 as usize, c as usize);
    }
}

// The same for a number, if its header is in use. The run stands at its slot.
fn raise_number(image: &[u8], n: FileNumber, used: bool, run: SlotRun, area: &mut [u8])
    requires { (open_volume image.now ≡ Ok tt) × (files image.now ≡ Ok tt) × (blocks image.now ≤ length area.old) × (used ≡ in_use image.now n.0) × Stands image.now n.0 run }
    ensures { area.new ≡ raised_by area.old (cond (in_use image.now n.0) (blocks_of (header image.now n.0)) []) }
{
    if used {
        raise_header(block(image, run.lbn), area);
    }
}

// The same for each header in use, in the order of their numbers.
fn raise_headers(image: &[u8], v: Volume, places: &Places, area: &mut [u8])
    requires { Recorded image.now v places.now × (files image.now ≡ Ok tt) × (blocks image.now ≤ length area.old) }
    ensures { area.new ≡ raised_by area.old (covered image.now) }
{
    let map = region(image, v.iblb, v.ibsz);
    let mut run = slot_run(image, v, FileNumber(1));
    for number in 1..v.fmax + 1 {
        let n = FileNumber(number);
        let used = bit_at(map, (number - 1) as usize) == 1;
        raise_number(image, n, used, run, area);
        run = next_run(image, v, places, n, run);
    }
}

// Block mark j made the times that LBN j is covered, capped at 2.
pub fn cover(image: &[u8], v: Volume, places: &Places, area: &mut [u8])
    requires { Recorded image.now v places.now × (files image.now ≡ Ok tt) × (blocks image.now ≤ length area.old) }
    ensures { area.new ≡ tallied (covered image.now) 0 (blocks image.now) area.old }
{
    clear_first(area, v.blocks as usize);
    raise_headers(image, v, places, area);
}

// TWICE, by the block marks.
pub fn twice(image: &[u8], v: Volume, area: &[u8]) -> Answer<()>
    requires { Open image.now v × (blocks image.now ≤ length area.now) × (area.now ≡ tallied (covered image.now) 0 (blocks image.now) area.now) }
    ensures { result ≡ twice image.now }
{
    match first_twice(area, v.blocks as usize) {
        None => Ok(()),
        Some(place) => Err(Refusal::Twice(place as u32)),
    }
}

// MAP, by the block marks.
pub fn bad_map(image: &[u8], v: Volume, area: &[u8]) -> Answer<()>
    requires { Open image.now v × (blocks image.now ≤ length area.now) × (area.now ≡ tallied (covered image.now) 0 (blocks image.now) area.now) }
    ensures { result ≡ bad_map image.now }
{
    let q = map_blocks(v.blocks);
    let bits = region(image, v.base, q);
    let end = 4096 * q;
    match first_unlike(bits, area, v.blocks as usize, end as usize) {
        None => Ok(()),
        Some(place) => Err(Refusal::Map(place as u32)),
    }
}
