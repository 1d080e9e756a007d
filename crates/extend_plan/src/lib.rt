// What extend asks of a volume that is judged, and where the pointer and the blocks go.

#![tactic(auto)]

ghost use Rattle.std.specs.Prelude.{◌≡◌, true, not, ◌≤◌};
ghost use Rattle.image.specs.Blocks.{block};
ghost use Rattle.answer.specs.declared.refusal.Refusal.TheVariants as refusal;
ghost use Rattle.answer.specs.Outcome.{unless, ◌then◌};
ghost use Rattle.volume.specs.Volume.{slot};
ghost use Rattle.volume.specs.Opening.{Open, Recorded};
ghost use Rattle.chains.specs.Chains.{good_chain, IsFirst, last_number};
ghost use Rattle.update.specs.Extend.{is_known_number, is_count, has_room, run_start, has_run, extend_tests};
ghost use Rattle.header.specs.Flags.{is_fixed};
ghost use Rattle.extend_plan.specs.Plan.{planned};

use answer::refusal::{Answer, Refusal};
use answer::types::{FileId, FileNumber, Lbn};
use chains::members_of;
use header::fields::{m_max, m_use};
use header::flags::is_fixed;
use image::blocks::{block, region};
use lowest_run::lowest_run;
use open_file::open_on;
use volume::{Places, Volume, map_blocks};

// Where extend puts the pointer and the blocks.
#[derive(Clone, Copy)]
pub struct Plan {
    // The LBN of the file's last header.
    pub last: Lbn,
    // The first of the new blocks.
    pub first: Lbn,
}

// KNOWN, FIXED and COUNT, for the file whose first header, of number n, is h.
fn admit(h: &[u8], n: u16, c: u32) -> Answer<()>
    ensures { result ≡ (unless (not (is_known_number n)) refusal.Known then unless (not (is_fixed h.now)) refusal.Fixed then unless (is_count c) refusal.Count) }
{
    if n <= 5 {
        return Err(Refusal::Known);
    }
    if is_fixed(h) {
        return Err(Refusal::Fixed);
    }
    if c < 1 || 256 < c {
        return Err(Refusal::Count);
    }
    Ok(())
}

// Whether a header has room for one pointer more.
#[tactic(auto, unfolding(update::specs::Extend::has_room))]
fn has_room(h: &[u8]) -> bool
    ensures { result ≡ has_room h.now }
{
    u16::from(m_use(h)) + 2 <= u16::from(m_max(h))
}

// The LBN of the last header of the file whose first header has number n and lies at this LBN.
fn last_slot(image: &[u8], v: Volume, places: &Places, n: FileNumber, lbn: Lbn) -> Lbn
    requires { Recorded image.now v places.now × IsFirst image.now n.0 × (good_chain image.now n.0 ≡ true) × (lbn.0 ≡ slot image.now n.0) }
    ensures { result.0 ≡ slot image.now (last_number image.now n.0) }
{
    let chain = members_of(image, v, places, n, lbn);
    let slots = chain.slots;
    Lbn(slots[chain.count - 1])
}

// FULL and RUN, for the file whose last header lies at this LBN.
fn find_run(image: &[u8], v: Volume, last: Lbn, c: u32) -> Answer<Plan>
    requires { Open image.now v × (1 ≤ c) × (c ≤ 256) }
    ensures { result ≡ planned (unless (has_room (block image.now last.0)) refusal.Full then unless (has_run image.now c) refusal.Run) last.0 (run_start image.now c) }
{
    if !has_room(block(image, last)) {
        return Err(Refusal::Full);
    }
    let map = region(image, v.base, map_blocks(v.blocks));
    let first = lowest_run(map, v.blocks, c).ok_or(Refusal::Run)?;
    Ok(Plan { last, first })
}

// The tests in their order, on a volume that is judged.
pub fn plan_on(image: &[u8], v: Volume, places: &Places, id: FileId, c: u32) -> Answer<Plan>
    requires { Recorded image.now v places.now }
    ensures { result ≡ planned (extend_tests image.now id c) (slot image.now (last_number image.now id.number)) (run_start image.now c) }
{
    let file = open_on(image, v, places, id)?;
    admit(block(image, file.header), id.number, c)?;
    let n = FileNumber(u32::from(id.number));
    let last = last_slot(image, v, places, n, file.header);
    find_run(image, v, last, c)
}
