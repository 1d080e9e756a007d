// The three steps of delete, over the numbers and the slots of a chain that were gathered before.

#![tactic(auto)]

ghost use Rattle.std.specs.Prelude.{◌≡◌, ◌+◌, ◌*◌, ◌≤◌, length, take};
ghost use Rattle.image.specs.Blocks.{block};
ghost use Rattle.pointers.specs.Pointers.{run, blocks_of};
ghost use Rattle.pointers.specs.Pointers.{flat};
ghost use Rattle.header_edit.specs.Cleared.{cleared_slot};
ghost use Rattle.image.specs.Stores.{put_block, put_map_bits};
ghost use Rattle.update.specs.Delete.{index_bits, clear_slots};
ghost use Rattle.delete_steps.specs.Steps.{HaveBits, PointsInto, Freeable, AllFreeable, AllInside};

use answer::types::Lbn;
use header_edit::clear_slot;
use image::blocks::block;
use pointers::{first_pointer, pointer_count, pointer_lbn, pointer_number};
use stores::{put_map_bit, put_map_run};

// The bits of the first `count` numbers in the index map, the q blocks from an LBN on, cleared.
pub fn clear_index(image: &mut [u8], map: Lbn, q: u32, numbers: [u32; 256], count: usize)
    requires { (512 * (map.0 + q) ≤ length image.old) × (count ≤ 256) × HaveBits q count numbers }
    ensures { image.new ≡ put_map_bits image.old map.0 q (index_bits (take count numbers)) 0 }
{
    for &n in &numbers[..count] {
        put_map_bit(image, map, q, n - 1, 0);
    }
}

// The blocks of the pointer at a byte of the header at an LBN made free, in the storage map, the q blocks from another on.
#[tactic(auto, unfolding(pointers::specs::Pointers::run))]
fn free_pointer(image: &mut [u8], map: Lbn, q: u32, lbn: Lbn, at: usize)
    requires { (512 * (map.0 + q) ≤ length image.old) × PointsInto (4096 * q) (block image.old lbn.0) at }
    ensures { image.new ≡ put_map_bits image.old map.0 q (run (block image.old lbn.0) at) 1 }
{
    let h = block(image, lbn);
    let s = pointer_lbn(h, at);
    let c = pointer_count(h, at);
    put_map_run(image, map, q, s.0, c, 1);
}

// The blocks that the header at an LBN covers made free, pointer by pointer. The header lies outside the map.
fn free_header(image: &mut [u8], map: Lbn, q: u32, lbn: Lbn)
    requires { (512 * (map.0 + q) ≤ length image.old) × Freeable image.old map.0 q lbn.0 }
    ensures { image.new ≡ put_map_bits image.old map.0 q (blocks_of (block image.old lbn.0)) 1 }
{
    let h = block(image, lbn);
    let at = first_pointer(h);
    let number = pointer_number(h);
    for p in 0..number {
        free_pointer(image, map, q, lbn, at + 4 * p);
    }
}

// The same for the headers in the first `count` of the slots.
pub fn free_headers(image: &mut [u8], map: Lbn, q: u32, slots: [u32; 256], count: usize)
    requires { (512 * (map.0 + q) ≤ length image.old) × (count ≤ 256) × AllFreeable image.old map.0 q count slots }
    ensures { image.new ≡ put_map_bits image.old map.0 q (flat (block image.old) (take count slots)) 1 }
{
    for &slot in &slots[..count] {
        free_header(image, map, q, Lbn(slot));
    }
}

// The slot at an LBN made 0, but for its sequence word.
fn clear_at(image: &mut [u8], lbn: Lbn)
    requires { 512 * (lbn.0 + 1) ≤ length image.old }
    ensures { image.new ≡ put_block image.old lbn.0 (cleared_slot (block image.old lbn.0)) }
{
    let from = 512 * (lbn.0 as usize);
    let to = from + 512;
    clear_slot(&mut image[from..to]);
}

// The same for the first `count` of the slots.
pub fn clear_slots(image: &mut [u8], slots: [u32; 256], count: usize)
    requires { (count ≤ 256) × AllInside image.old count slots }
    ensures { image.new ≡ clear_slots image.old (take count slots) }
{
    for &slot in &slots[..count] {
        clear_at(image, Lbn(slot));
    }
}
