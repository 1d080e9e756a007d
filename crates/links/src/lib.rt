// LINKS: how often each header in use is linked, kept as marks, and the lowest file number that offends. FILES has passed before, so that each
// header in use has a slot and is whole.

#![tactic(auto)]

ghost use Rattle.std.specs.Prelude.{◌≡◌, true, cond, [], ◌+◌, ◌≤◌, length, MatchOption};
ghost use Rattle.image.specs.Blocks.{block};
ghost use Rattle.header.specs.Fields.{m_efnu};
ghost use Rattle.volume.specs.Volume.{fmax, in_use};
ghost use Rattle.volume.specs.Opening.{Recorded};
ghost use Rattle.chains.specs.Chains.{good_link};
ghost use Rattle.marks.specs.Marks.{capped, tallied};
ghost use Rattle.slots.specs.Slots.{Stands};
ghost use Rattle.files.specs.Files.{files};
ghost use Rattle.links.specs.Links.{linked, raised_link, links_wanted, bad_links, links_place, links};
ghost use Rattle.files.specs.Single.{Unlinked};

use answer::refusal::{Answer, Refusal};
use answer::types::{FileNumber, Lbn};
use chains::slot_in_use;
use header::fields::{h_fseq, m_efnu, m_efsq, segment};
use image::bits::bit_at;
use image::blocks::{block, region};
use marks::{clear_first, raise};
use slots::{SlotRun, next_run, slot_run};
use volume::{Places, Volume};

// The mark of a number raised, if it is from 1 to H.FMAX.
#[tactic(auto, unfolding(crate::specs::Links::raised_link))]
fn raise_link(headers: &mut [u8], fmax: u32, n: FileNumber)
    requires { fmax ≤ length headers.old }
    ensures { headers.new ≡ raised_link headers.old fmax n.0 }
{
    if n.0 < 1 || fmax < n.0 {
        return;
    }
    raise(headers, (n.0 - 1) as usize);
}

// M.EFNU of the header at an LBN, where its number is in use; else 0, which names no number.
fn link_of(image: &[u8], used: bool, lbn: Lbn) -> FileNumber
    ensures { result.0 ≡ cond used (m_efnu (block image.now lbn.0)) 0 }
{
    if !used {
        return FileNumber(0);
    }
    FileNumber(u32::from(m_efnu(block(image, lbn))))
}

// For each header in use, the mark of the number that it links to raised.
fn raise_links(image: &[u8], v: Volume, places: &Places, headers: &mut [u8])
    requires { Recorded image.now v places.now × (files image.now ≡ Ok tt) × (fmax image.now ≤ length headers.old)
        × (headers.old ≡ tallied [] 1 (fmax image.now) headers.old) }
    ensures { headers.new ≡ tallied (linked image.now) 1 (fmax image.now) headers.old }
{
    let map = region(image, v.iblb, v.ibsz);
    let mut run = slot_run(image, v, FileNumber(1));
    for n in 1..v.fmax + 1 {
        let used = bit_at(map, (n - 1) as usize) == 1;
        raise_link(headers, v.fmax, link_of(image, used, run.lbn));
        run = next_run(image, v, places, FileNumber(n), run);
    }
}

// Counts the links: mark n − 1 is how many headers in use link to n, capped at 2.
pub fn count_links(image: &[u8], v: Volume, places: &Places, headers: &mut [u8])
    requires { Recorded image.now v places.now × (files image.now ≡ Ok tt) × (fmax image.now ≤ length headers.old) }
    ensures { headers.new ≡ tallied (linked image.now) 1 (fmax image.now) headers.old }
{
    clear_first(headers, v.fmax as usize);
    raise_links(image, v, places, headers);
}

// Whether header h has a good link. That the header it names is whole FILES has shown.
fn has_good_link(image: &[u8], v: Volume, places: &Places, h: &[u8]) -> bool
    requires { Recorded image.now v places.now × (files image.now ≡ Ok tt) }
    ensures { result ≡ good_link image.now h.now }
{
    let n = FileNumber(u32::from(m_efnu(h)));
    if n.0 == 0 {
        return true;
    }
    let Some(lbn) = slot_in_use(image, v, places, n) else {
        return false;
    };
    let next = block(image, lbn);
    h_fseq(next) == m_efsq(h) && u16::from(segment(next)) == u16::from(segment(h)) + 1
}

// How often a header must be linked.
#[tactic(auto, unfolding(crate::specs::Links::links_wanted))]
fn links_wanted(h: &[u8]) -> u8
    ensures { result ≡ links_wanted h.now }
{
    if segment(h) == 0 { 0 } else { 1 }
}

// Whether number n offends, by its mark.
fn is_bad_link(
    image: &[u8],
    v: Volume,
    places: &Places,
    n: FileNumber,
    used: bool,
    run: SlotRun,
    mark: u8,
) -> bool
    requires { Recorded image.now v places.now × (files image.now ≡ Ok tt) × Stands image.now n.0 run
        × (used ≡ in_use image.now n.0) × (mark ≡ capped (linked image.now) n.0) }
    ensures { result ≡ bad_links image.now (linked image.now) n.0 }
{
    if !used {
        return false;
    }
    let h = block(image, run.lbn);
    mark != links_wanted(h) || !has_good_link(image, v, places, h)
}

// The lowest number that offends, if there is one.
fn first_bad_link(image: &[u8], v: Volume, places: &Places, headers: &[u8]) -> Option<FileNumber>
    requires { Recorded image.now v places.now × (files image.now ≡ Ok tt) × (fmax image.now ≤ length headers.now)
        × (headers.now ≡ tallied (linked image.now) 1 (fmax image.now) headers.now) }
    ensures { MatchOption result (links_place image.now ≡ fmax image.now + 1) (λ n. (links_place image.now ≡ n.0) × (n.0 ≤ fmax image.now)) }
{
    let map = region(image, v.iblb, v.ibsz);
    let mut run = slot_run(image, v, FileNumber(1));
    for number in 1..v.fmax + 1 {
        let n = FileNumber(number);
        let i = (number - 1) as usize;
        let used = bit_at(map, i) == 1;
        if is_bad_link(image, v, places, n, used, run, headers[i]) {
            return Some(n);
        }
        run = next_run(image, v, places, n, run);
    }
    None
}

// LINKS, with the counts left in the marks. Where each header in use is known to be the only one of its file, LINKS is passed and the counts are 0.
pub fn links(
    image: &[u8],
    v: Volume,
    places: &Places,
    single: bool,
    headers: &mut [u8],
) -> Answer<()>
    requires { Recorded image.now v places.now × (files image.now ≡ Ok tt) × (fmax image.now ≤ length headers.old)
        × (single ≡ true → Unlinked image.now) }
    ensures { (result ≡ links image.now)
        × (headers.new ≡ tallied (linked image.now) 1 (fmax image.now) headers.old) }
{
    if single {
        let numbers = v.fmax as usize;
        clear_first(headers, numbers);
        return Ok(());
    }
    count_links(image, v, places, headers);
    match first_bad_link(image, v, places, headers) {
        Some(n) => Err(Refusal::Links(n.0)),
        None => Ok(()),
    }
}
