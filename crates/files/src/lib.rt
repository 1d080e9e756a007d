// FILES: the lowest file number that offends, and the unmet test of its header.

#![tactic(auto)]

ghost use Rattle.std.specs.Prelude.{◌≡◌, true, cond, ◌+◌, ◌≤◌, MatchResult};
ghost use Rattle.image.specs.Blocks.{block};
ghost use Rattle.volume.specs.Volume.{fmax, in_use};
ghost use Rattle.volume.specs.Opening.{Open, Recorded};
ghost use Rattle.slots.specs.Slots.{Stands};
ghost use Rattle.files.specs.Files.{bad_file, unmet_of, files_place, files};
ghost use Rattle.files.specs.Single.{is_single, UnlinkedBelow, Unlinked};

use answer::refusal::{Answer, Refusal};
use answer::types::{FileNumber, Lbn};
use chains::slot_in_use;
use header::fields::{h_fseq, m_efnu, segment};
use image::bits::bit_at;
use image::blocks::{block, region};
use slots::{SlotRun, next_run, slot_run};
use volume::{Places, Volume};
use whole::fault;

// Whether number n offends. A number that is in use, or known, must have a whole header; a known one its own number as sequence, and segment 0.
fn is_bad_file(image: &[u8], v: Volume, n: FileNumber, used: bool, run: SlotRun) -> bool
    requires { Open image.now v × Stands image.now n.0 run × (used ≡ in_use image.now n.0) × (1 ≤ n.0) }
    ensures { result ≡ bad_file image.now n.0 }
{
    if !used {
        return n.0 <= 5;
    }
    if run.left == 0 {
        return true;
    }
    let h = block(image, run.lbn);
    fault(h, v.blocks, n) != 0 || n.0 <= 5 && (u32::from(h_fseq(h)) != n.0 || segment(h) != 0)
}

// Whether the header at an LBN is the only one of its file, where its number is in use; else true.
#[tactic(auto, unfolding(crate::specs::Single::is_single))]
fn is_single(image: &[u8], used: bool, lbn: Lbn) -> bool
    ensures { result ≡ cond used (is_single (block image.now lbn.0)) true }
{
    if !used {
        return true;
    }
    let h = block(image, lbn);
    m_efnu(h) == 0 && segment(h) == 0
}

// The lowest number that offends; where there is none, whether each header in use is the only one of its file.
fn first_bad_file(image: &[u8], v: Volume, places: &Places) -> Result<bool, FileNumber>
    requires { Recorded image.now v places.now }
    ensures { MatchResult result (λ single. (files_place image.now ≡ fmax image.now + 1) × (single ≡ true → UnlinkedBelow image.now (fmax image.now + 1))) (λ n. (files_place image.now ≡ n.0) × (n.0 ≤ fmax image.now)) }
{
    let map = region(image, v.iblb, v.ibsz);
    let mut run = slot_run(image, v, FileNumber(1));
    let mut single = true;
    for number in 1..v.fmax + 1 {
        let n = FileNumber(number);
        let used = bit_at(map, (number - 1) as usize) == 1;
        if is_bad_file(image, v, n, used, run) {
            return Err(n);
        }
        single = single && is_single(image, used, run.lbn);
        run = next_run(image, v, places, n, run);
    }
    Ok(single)
}

// The first test that the header of a number does not meet; 0 where the number is not in use, has no slot or its header is whole.
fn unmet_of(image: &[u8], v: Volume, places: &Places, n: FileNumber) -> u8
    requires { Recorded image.now v places.now }
    ensures { result ≡ unmet_of image.now n.0 }
{
    match slot_in_use(image, v, places, n) {
        Some(lbn) => fault(block(image, lbn), v.blocks, n),
        None => 0,
    }
}

// FILES; and, where it is passed, whether each header in use is known to be the only one of its file.
pub fn files(image: &[u8], v: Volume, places: &Places) -> Answer<bool>
    requires { Recorded image.now v places.now }
    ensures { MatchResult result (λ single. (files image.now ≡ Ok tt) × (single ≡ true → Unlinked image.now)) (λ r. files image.now ≡ Err r) }
{
    match first_bad_file(image, v, places) {
        Ok(single) => Ok(single),
        Err(n) => Err(Refusal::Files(n.0, unmet_of(image, v, places, n))),
    }
}
