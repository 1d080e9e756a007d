// The retrieval pointers of a header, walked in order, and the blocks that they cover.

#![tactic(auto)]

ghost use Rattle.std.specs.Prelude.{◌≡◌, ◌+◌, ◌≤◌, ◌<◌, ◌^◌, length, get_or};
ghost use Rattle.pointers.specs.Pointers.{pointer_lbn, pointer_count, pointers_at, pointers, Fits, blocks_of, SpotOf, place_in};

use answer::types::Lbn;
use header::fields::{m_use, map_area};
use image::words::word_at;

// Where a place, from 0, lies among the pointers of a header.
#[derive(Clone, Copy)]
pub struct Spot {
    // The block.
    pub lbn: Lbn,
    // How many blocks of its pointer are left, it among them.
    pub left: u32,
    // Which pointer that is, from 0.
    pub pointer: usize,
}

// The first LBN of the pointer at a byte of the header.
#[tactic(auto, unfolding(crate::specs::Pointers::pointer_lbn))]
pub fn pointer_lbn(h: &[u8], at: usize) -> Lbn
    requires { at + 4 ≤ length h.now }
    ensures { (result.0 ≡ pointer_lbn h.now at) × (result.0 < 2 ^ 24) }
{
    Lbn(65536 * u32::from(h[at]) + u32::from(word_at(h, at + 2)))
}

// How many blocks the pointer at a byte of the header covers.
#[tactic(auto, unfolding(crate::specs::Pointers::pointer_count))]
pub fn pointer_count(h: &[u8], at: usize) -> u32
    requires { at + 4 ≤ length h.now }
    ensures { (result ≡ pointer_count h.now at) × (result ≤ 256) }
{
    u32::from(h[at + 1]) + 1
}

// The byte of the header at which its pointers begin.
#[tactic(auto, unfolding(crate::specs::Pointers::pointers_at))]
pub fn first_pointer(h: &[u8]) -> usize
    ensures { (result ≡ pointers_at h.now) × (result ≤ 520) }
{
    map_area(h) + 10
}

// How many pointers are in use.
#[tactic(auto, unfolding(crate::specs::Pointers::pointers))]
pub fn pointer_number(h: &[u8]) -> usize
    ensures { (result ≡ pointers h.now) × (result ≤ 127) }
{
    usize::from(m_use(h)) / 2
}

// How many blocks the header covers: one for each pointer, and what the count bytes add. A sum of machine words is the fastest; of narrower ones the
// compiler adds several at once, and gathers their bytes one by one.
#[tactic(auto, unfolding(crate::specs::Pointers::blocks_of))]
pub fn block_count(h: &[u8]) -> u32
    requires { Fits h.now }
    ensures { (result ≡ length (blocks_of h.now)) × (result ≤ 32512) }
{
    let at = first_pointer(h);
    let number = pointer_number(h);
    let mut count = number;
    for p in 0..number {
        count += usize::from(h[at + 4 * p + 1]);
    }
    count as u32
}

// Where place i, from 0, lies among the pointers of a header; or how far it lies past the last of their blocks.
#[tactic(auto, unfolding(crate::specs::Pointers::blocks_of))]
pub fn spot_of(h: &[u8], i: u32) -> Result<Spot, u32>
    requires { Fits h.now }
    ensures { SpotOf h.now i result }
{
    let at = first_pointer(h);
    let number = pointer_number(h);
    let mut left = i;
    for pointer in 0..number {
        let count = pointer_count(h, at + 4 * pointer);
        if left < count {
            let from = pointer_lbn(h, at + 4 * pointer);
            return Ok(Spot {
                lbn: Lbn(from.0 + left),
                left: count - left,
                pointer,
            });
        }
        left -= count;
    }
    Err(left)
}

// The block at a place, from 0, of those that the header covers; or how far the place lies past the last.
pub fn place_of(h: &[u8], i: u32) -> Result<Lbn, u32>
    requires { Fits h.now }
    ensures { result ≡ place_in (blocks_of h.now) i }
{
    Ok(spot_of(h, i)?.lbn)
}

// The LBN of block i, from 0, of those that the header covers; 0 past the last.
pub fn lbn_in(h: &[u8], i: u32) -> Lbn
    requires { Fits h.now }
    ensures { result.0 ≡ get_or (blocks_of h.now) i 0 }
{
    place_of(h, i).unwrap_or(Lbn(0))
}
