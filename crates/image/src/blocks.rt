// Blocks of an image, handed on as parts of it.
ghost use Rattle.std.specs.Prelude.{◌≡◌, ◌+◌, ◌*◌, ◌≤◌, length};
ghost use Rattle.image.specs.Blocks.{region, block};

use answer::types::Lbn;

// The q blocks from an LBN on; fewer bytes, or none, where the image ends before.
#[tactic(auto, unfolding(crate::specs::Blocks::region))]
pub fn region(image: &[u8], lbn: Lbn, q: u32) -> &[u8]
    ensures { result.now ≡ region image.now lbn.0 q }
{
    let n = image.len();
    let from = 512 * (lbn.0 as usize);
    let size = 512 * (q as usize);
    if n <= from {
        return &image[n..n];
    }
    if n - from <= size {
        return &image[from..n];
    }
    let to = from + size;
    &image[from..to]
}

// The block with an LBN; fewer bytes, or none, where the image ends before.
#[tactic(auto, unfolding(crate::specs::Blocks::region, crate::specs::Blocks::block))]
pub fn block(image: &[u8], lbn: Lbn) -> &[u8]
    ensures { result.now ≡ block image.now lbn.0 }
{
    region(image, lbn, 1)
}

// The block with an LBN of an image that has it, without a test.
pub fn block_inside(image: &[u8], lbn: Lbn) -> &[u8]
    requires { 512 * lbn.0 + 512 ≤ length image.now }
    ensures { result.now ≡ block image.now lbn.0 }
{
    let start = 512 * (lbn.0 as usize);
    let end = start + 512;
    &image[start..end]
}
