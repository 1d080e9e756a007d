// BADHOME: the home positions below the home, and the blocks of file 3.

#![tactic(auto)]

ghost use Rattle.std.specs.Prelude.{◌≡◌, ◌*◌, ◌≤◌, ◌<◌, length, MatchOption};
ghost use Rattle.lists.specs.First.{first};
ghost use Rattle.home.specs.Home.{blocks};
ghost use Rattle.volume.specs.Opening.{Recorded};
ghost use Rattle.chains.specs.Chains.{file_blocks};
ghost use Rattle.marks.specs.Marks.{tallied, raised_by};
ghost use Rattle.files.specs.Files.{files};
ghost use Rattle.links.specs.Links.{links};
ghost use Rattle.covers.specs.Covered.{covered, twice};
ghost use Rattle.bad_home.specs.Homes.{unmarked, bad_home};

use answer::refusal::{Answer, Refusal};
use answer::types::FileNumber;
use chains::{header_of, next_header};
use covers::raise_header;
use header::fields::m_efnu;
use home::position;
use marks::lower_first;
use volume::{Places, Volume};

// The marks of the blocks of file 3 raised, by one walk over its headers.
fn raise_chain(image: &[u8], v: Volume, places: &Places, area: &mut [u8])
    requires { Recorded image.now v places.now × (files image.now ≡ Ok tt) × (links image.now ≡ Ok tt) × (blocks image.now ≤ length area.old) }
    ensures { area.new ≡ raised_by area.old (file_blocks image.now 3) }
{
    let mut h = header_of(image, v, places, FileNumber(3));
    loop {
        raise_header(h, area);
        let next = FileNumber(u32::from(m_efnu(h)));
        if next.0 == 0 {
            return;
        }
        h = next_header(image, v, places, h, next);
    }
}

// Of the first positions, so many, the first whose mark is not 2, if there is one.
fn first_unmarked(area: &[u8], count: u32) -> Option<u32>
    requires { (256 * count ≤ length area.now) × (count ≤ 4096) }
    ensures { MatchOption result (first (unmarked area.now) 0 count ≡ count) (λ i. (first (unmarked area.now) 0 count ≡ i) × (i < count)) }
{
    for i in 0..count {
        if area[position(i).0 as usize] < 2 {
            return Some(i);
        }
    }
    None
}

// BADHOME. No block is marked twice when it is asked, so the blocks of file 3 are told apart by a second mark, which is then taken away again.
pub fn bad_home(image: &[u8], v: Volume, places: &Places, area: &mut [u8]) -> Answer<()>
    requires { Recorded image.now v places.now × (files image.now ≡ Ok tt) × (links image.now ≡ Ok tt) × (twice image.now ≡ Ok tt) × (blocks image.now ≤ length area.old) × (area.old ≡ tallied (covered image.now) 0 (blocks image.now) area.old) }
    ensures { (result ≡ bad_home image.now) × (area.new ≡ area.old) }
{
    let count = v.home.0 / 256;
    if count == 0 {
        return Ok(());
    }
    raise_chain(image, v, places, area);
    let unmarked = first_unmarked(area, count);
    lower_first(area, v.blocks as usize);
    match unmarked {
        Some(i) => Err(Refusal::Badhome(position(i).0)),
        None => Ok(()),
    }
}
