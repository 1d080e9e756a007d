// The slots of file numbers, walked in order: a run of slots at a time. A walk keeps the header and the retrieval pointer of the index file that it
// stands in, so a pass over all numbers goes over the pointers once.

#![tactic(auto)]

ghost use Rattle.std.specs.Prelude.{◌≡◌, ◌+◌, ◌-◌, ◌≤◌, ◌<◌, ◌^◌, length};
ghost use Rattle.pointers.specs.Pointers.{pointers_at, pointers, runs, Fits, blocks_of};
ghost use Rattle.volume.specs.Opening.{Open, Recorded};
ghost use Rattle.slots.specs.Slots.{RunOf, Stands, Begins};

use answer::types::{FileNumber, Lbn, Vbn};
use image::blocks::{block, block_inside};
use pointers::{first_pointer, pointer_count, pointer_lbn, pointer_number, spot_of};
use volume::{Places, Volume, slot_vbn};

// Slots that lie in a row: what is left of a retrieval pointer of the index file.
#[derive(Clone, Copy)]
pub struct SlotRun {
    // Where the first of them lies.
    pub lbn: Lbn,
    // How many they are; none past the last slot.
    pub left: u32,
    // Which header of the index file has the pointer, from 0.
    pub segment: usize,
    // Which of its pointers it is, from 0.
    pub pointer: usize,
}

// The blocks in a row from a VBN on, among the blocks that header 1 covers: those that are left of the pointer there.
fn run_at(h: &[u8], vbn: Vbn) -> SlotRun
    requires { Fits h.now × (1 ≤ vbn.0) }
    ensures { RunOf (blocks_of h.now) (vbn.0 - 1) result
        × (1 ≤ result.left → (result.segment ≡ 0) × (result.pointer < pointers h.now)
        × (vbn.0 - 1 + result.left ≡ length (runs h.now (pointers_at h.now) (result.pointer + 1)))) }
{
    match spot_of(h, vbn.0 - 1) {
        Ok(spot) => SlotRun {
            lbn: spot.lbn,
            left: spot.left,
            segment: 0,
            pointer: spot.pointer,
        },
        Err(_) => SlotRun {
            lbn: Lbn(0),
            left: 0,
            segment: 1,
            pointer: 0,
        },
    }
}

// The run of slots that begins at one of the first sixteen numbers, whose slots header 1 has.
#[tactic(auto, using(volume::proofs::VolumeLaws::open_room))]
pub fn slot_run(image: &[u8], v: Volume, n: FileNumber) -> SlotRun
    requires { Open image.now v × (n.0 ≤ 16) }
    ensures { Stands image.now n.0 result }
{
    let first = v.iblb.0 + v.ibsz;
    let h = block(image, Lbn(first));
    run_at(h, slot_vbn(v.ibsz, n))
}

// The run of slots that begins at a file number, where pointer p of header k of the index file begins with its slot, or would: those of that pointer or,
// past the header's last, of the first pointer of a header after it.
#[tactic(auto, using(volume::proofs::VolumeLaws::segments_few))]
fn run_from(image: &[u8], v: Volume, places: &Places, n: FileNumber, k: usize, p: usize) -> SlotRun
    requires { Recorded image.now v places.now × Begins image.now n.0 k p }
    ensures { Stands image.now n.0 result }
{
    let mut pointer = p;
    for segment in k..v.segments {
        let h = block_inside(image, Lbn(places[segment]));
        if pointer < pointer_number(h) {
            let at = first_pointer(h) + 4 * pointer;
            return SlotRun {
                lbn: pointer_lbn(h, at),
                left: pointer_count(h, at),
                segment,
                pointer,
            };
        }
        pointer = 0;
    }
    SlotRun {
        lbn: Lbn(0),
        left: 0,
        segment: v.segments,
        pointer: 0,
    }
}

// The run of slots at the next number, where one stands at this number.
pub fn next_run(image: &[u8], v: Volume, places: &Places, n: FileNumber, run: SlotRun) -> SlotRun
    requires { Recorded image.now v places.now × Stands image.now n.0 run × (n.0 < 2 ^ 31) }
    ensures { Stands image.now (n.0 + 1) result }
{
    if run.left < 2 {
        return run_from(
            image,
            v,
            places,
            FileNumber(n.0 + 1),
            run.segment,
            run.pointer + 1,
        );
    }
    SlotRun {
        lbn: Lbn(run.lbn.0 + 1),
        left: run.left - 1,
        ..run
    }
}
