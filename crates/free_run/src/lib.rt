// Runs of free blocks of a volume, one after the other, by its storage map.

#![tactic(auto)]

ghost use Rattle.std.specs.Prelude.{◌≡◌, ◌*◌, ◌^◌, ◌≤◌, ◌<◌, length};
ghost use Rattle.volume.specs.Opening.{Open};
ghost use Rattle.free_run.specs.Free.{next_bit, free_run_answer};

use answer::refusal::{Answer, Refusal};
use answer::types::{Lbn, Run};
use image::bits::bit_at;
use image::blocks::region;
use open_volume::open;
use volume::{Volume, map_blocks};

// The first place from a place on, below n, at which the bit of a map is b; not below n where there is none.
#[tactic(auto, using(crate::proofs::FreeLaws::next_steps))]
fn next_bit(map: &[u8], n: u32, b: u8, from: u32) -> u32
    requires { (n ≤ 8 * length map.now) × (n < 2 ^ 31) }
    ensures { result ≡ next_bit map.now n b from }
{
    for j in from..n {
        if bit_at(map, j as usize) == b {
            return j;
        }
    }
    from.max(n)
}

// The first run of free blocks from an LBN on, of an opened volume: ABSENT.
fn free_on(image: &[u8], v: Volume, from: Lbn) -> Answer<Run>
    requires { Open image.now v }
    ensures { result ≡ free_run_answer image.now from.0 }
{
    let map = region(image, v.base, map_blocks(v.blocks));
    let start = next_bit(map, v.blocks, 1, from.0);
    if v.blocks <= start {
        return Err(Refusal::Absent);
    }
    let end = next_bit(map, v.blocks, 0, start);
    Ok(Run {
        lbn: Lbn(start),
        count: end - start,
    })
}

// The first run of free blocks from an LBN on; ABSENT where no block from there on is free.
#[tactic(auto, using(crate::proofs::FreeLaws::run_refused), unfolding(image::specs::Stores::zeros))]
pub fn free_run(image: &[u8], from: Lbn) -> Answer<Run>
    ensures { result ≡ free_run_answer image.now from.0 }
{
    let mut places = [0u32; 256];
    let v = open(image, &mut places)?;
    free_on(image, v, from)
}
