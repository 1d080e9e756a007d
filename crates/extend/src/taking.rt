// The stores of extend: the storage map's bits, then the header's pointer.
ghost use Rattle.std.specs.Prelude.{◌≡◌, ◌+◌, ◌*◌, ◌≤◌, ◌<◌, ◌^◌, length};
ghost use Rattle.image.specs.Blocks.{block};
ghost use Rattle.lists.specs.Lists.{numbers_from};
ghost use Rattle.header.specs.Fields.{h_mpof, m_use, m_max};
ghost use Rattle.home.specs.Home.{blocks};
ghost use Rattle.volume.specs.Volume.{map_blocks, base};
ghost use Rattle.volume.specs.Opening.{Open};
ghost use Rattle.header_edit.specs.Extended.{extended_header};
ghost use Rattle.image.specs.Stores.{put_block, put_map_bits};
ghost use Rattle.extend.specs.Taking.{Takes};

use answer::types::Lbn;
use header_edit::add_pointer;
use stores::put_map_run;
use volume::{Volume, map_blocks};

// The c blocks from an LBN on taken: their bits of the storage map clear.
fn take_blocks(image: &mut [u8], v: Volume, lbn: Lbn, c: u32)
    requires { Open image.old v × (lbn.0 + c ≤ blocks image.old) }
    ensures { image.new ≡ put_map_bits image.old (base image.old) (map_blocks (blocks image.old)) (numbers_from lbn.0 c) 0 }
{
    let q = map_blocks(v.blocks);
    put_map_run(image, v.base, q, lbn.0, c, 0);
}

// The pointer to the c blocks from an LBN on, in the header at another.
fn point_to(image: &mut [u8], last: Lbn, lbn: Lbn, c: u32)
    requires { (512 * last.0 + 512 ≤ length image.old)
        × (h_mpof (block image.old last.0) + 5 + m_max (block image.old last.0) ≤ 255)
        × (m_use (block image.old last.0) + 2 ≤ m_max (block image.old last.0))
        × (lbn.0 < 2 ^ 24) × (1 ≤ c) × (c ≤ 256) }
    ensures { image.new ≡ put_block image.old last.0 (extended_header (block image.old last.0) lbn.0 c) }
{
    let from = 512 * (last.0 as usize);
    let to = from + 512;
    add_pointer(&mut image[from..to], lbn, c);
}

// The blocks taken, and then the pointer to them stored. The header lies off the storage map, so it is as it was when the pointer is stored.
pub fn take(image: &mut [u8], v: Volume, last: Lbn, lbn: Lbn, c: u32)
    requires { Open image.old v × Takes image.old last.0 lbn.0 c }
    ensures { image.new ≡ put_block (put_map_bits image.old (base image.old) (map_blocks (blocks image.old)) (numbers_from lbn.0 c) 0) last.0 (extended_header (block image.old last.0) lbn.0 c) }
{
    take_blocks(image, v, lbn, c);
    point_to(image, last, lbn, c);
}
