// The checksum of headers and home blocks.
ghost use Rattle.std.specs.Prelude.{◌≡◌, ◌*◌, ◌≤◌, length};
ghost use Rattle.image.specs.Sums.{checksum};

use crate::words::word_at;

// The sum of the first n words, kept to 16 bits, where that of the first `from` of them is known.
pub fn checksum_on(b: &[u8], known: u16, from: usize, n: usize) -> u16
    requires { (known ≡ checksum b.now from) × (from ≤ n) × (2 * n ≤ length b.now) }
    ensures { result ≡ checksum b.now n }
{
    let mut sum = known;
    for i in from..n {
        sum = sum.wrapping_add(word_at(b, 2 * i));
    }
    sum
}

// The sum of the first n words, kept to 16 bits.
#[tactic(auto, unfolding(crate::specs::Sums::checksum, crate::specs::Sums::word_sum))]
pub fn checksum(b: &[u8], n: usize) -> u16
    requires { 2 * n ≤ length b.now }
    ensures { result ≡ checksum b.now n }
{
    checksum_on(b, 0, 0, n)
}
