// The lowest spare file number.

#![tactic(auto)]

ghost use Rattle.std.specs.Prelude.{◌≡◌, ◌+◌, ◌≤◌, MatchOption};
ghost use Rattle.volume.specs.Volume.{in_use};
ghost use Rattle.volume.specs.Opening.{Recorded};
ghost use Rattle.slots.specs.Slots.{Stands};
ghost use Rattle.spare_number.specs.SpareNumber.{is_spare, spare_number};

use answer::types::FileNumber;
use header::fields::h_fseq;
use image::bits::bit_at;
use image::blocks::{block, region};
use slots::{SlotRun, next_run, slot_run};
use volume::{Places, Volume};

// Whether number n is spare. The run stands at its slot, whose word is read only where n is not in use.
#[tactic(auto, using(crate::proofs::SpareLaws::spare_used, crate::proofs::SpareLaws::spare_past, crate::proofs::SpareLaws::spare_word))]
fn is_spare(image: &[u8], n: FileNumber, used: bool, run: SlotRun) -> bool
    requires { (used ≡ in_use image.now n.0) × Stands image.now n.0 run }
    ensures { result ≡ is_spare image.now n.0 }
{
    !used && run.left != 0 && h_fseq(block(image, run.lbn)) < 65535
}

// The lowest spare number from 6 on. Past the last slot no number is spare, so the search ends there.
#[tactic(auto, using(slots::proofs::SlotLaws::fmax_few))]
pub fn spare_number(image: &[u8], v: Volume, places: &Places) -> Option<FileNumber>
    requires { Recorded image.now v places.now }
    ensures { MatchOption result (spare_number image.now ≡ v.fmax + 1) (λ n. (spare_number image.now ≡ n.0) × (n.0 ≤ v.fmax)) }
{
    let map = region(image, v.iblb, v.ibsz);
    let mut run = slot_run(image, v, FileNumber(6));
    for n in 6..v.fmax + 1 {
        if run.left == 0 {
            break;
        }
        let used = bit_at(map, (n - 1) as usize) == 1;
        if is_spare(image, FileNumber(n), used, run) {
            return Some(FileNumber(n));
        }
        run = next_run(image, v, places, FileNumber(n), run);
    }
    None
}
