// The search through the records of a directory.

#![tactic(auto)]

ghost use Rattle.std.specs.Prelude.{◌≡◌, ◌+◌, ◌*◌, ◌≤◌, ◌<◌, length};
ghost use Rattle.lists.specs.Lists.{numbers_from};
ghost use Rattle.pointers.specs.Pointers.{Fits, blocks_of};
ghost use Rattle.volume.specs.Volume.{slot};
ghost use Rattle.chains.specs.Chains.{file_blocks};
ghost use Rattle.directory.specs.Search.{entry_of_file, search_in, Inside, FileOpen};

use answer::types::{FileNumber, Lbn};
use chains::{lbn_at, next_header};
use header::fields::m_efnu;
use image::blocks::{block, region};
use pointers::{block_count, first_pointer, pointer_count, pointer_lbn, pointer_number};
use record_search::first_in;
use records::{Entry, Wanted, entry_at};
use volume::{Places, Volume};

// A run of blocks, as one retrieval pointer covers it.
fn search_run(image: &[u8], lbn: Lbn, count: u32, from: u32, to: u32, w: Wanted) -> u32
    requires { (512 * (lbn.0 + count) ≤ length image.now) × (count ≤ 256) × (from ≤ to) }
    ensures { (result ≡ search_in image.now (numbers_from lbn.0 count) w from to) × (from ≤ result) × (result ≤ to) }
{
    let end = to.min(32 * count);
    if end <= from {
        return from;
    }
    let b = region(image, lbn, count);
    first_in(b, from, end, w)
}

// The blocks that a header covers.
fn search_header(image: &[u8], h: &[u8], from: u32, to: u32, w: Wanted) -> u32
    requires { Fits h.now × Inside image.now h.now × (from ≤ to) }
    ensures { (result ≡ search_in image.now (blocks_of h.now) w from to) × (from ≤ result) × (result ≤ to) }
{
    let first = first_pointer(h);
    let number = pointer_number(h);
    let mut place = from;
    let mut start: u32 = 0;
    for p in 0..number {
        let pointer = first + 4 * p;
        let lbn = pointer_lbn(h, pointer);
        let count = pointer_count(h, pointer);
        let r = search_run(image, lbn, count, place - start, to - start, w);
        if r < 32 * count {
            return start + r;
        }
        place = start + r;
        start += 32 * count;
    }
    place
}

// The blocks of the file whose first header has a number and lies at an LBN.
pub fn search_file(
    image: &[u8],
    v: Volume,
    places: &Places,
    n: FileNumber,
    lbn: Lbn,
    from: u32,
    to: u32,
    w: Wanted,
) -> u32
    requires { FileOpen image.now v places.now n.0 × (from ≤ to) × (lbn.0 ≡ slot image.now n.0) }
    ensures { (result ≡ search_in image.now (file_blocks image.now n.0) w from to) × (from ≤ result) × (result ≤ to) }
{
    let mut h = block(image, lbn);
    let mut place = from;
    let mut start: u32 = 0;
    // A loop: each header names the next, so how many there are is not known before.
    loop {
        let count = block_count(h);
        let r = search_header(image, h, place - start, to - start, w);
        if r < 32 * count {
            return start + r;
        }
        place = start + r;
        start += 32 * count;
        let next = FileNumber(u32::from(m_efnu(h)));
        if next.0 == 0 {
            return place;
        }
        h = next_header(image, v, places, h, next);
    }
}

// How many records a file of so many blocks has. A chain has at most 256 headers of 32,512 blocks, so the number fits.
pub fn record_count(blocks: u32) -> u32
    requires { blocks ≤ 8323072 }
    ensures { result ≡ 32 * blocks }
{
    32 * blocks
}

// The entry in record r of the file whose first header has a number and lies at an LBN.
pub fn entry_of_file(
    image: &[u8],
    v: Volume,
    places: &Places,
    n: FileNumber,
    lbn: Lbn,
    r: u32,
) -> Entry
    requires { FileOpen image.now v places.now n.0 × (r < 32 * length (file_blocks image.now n.0)) × (lbn.0 ≡ slot image.now n.0) }
    ensures { result ≡ entry_of_file image.now n.0 r }
{
    let place = lbn_at(image, v, places, n, lbn, r / 32);
    entry_at(block(image, place), r % 32)
}
