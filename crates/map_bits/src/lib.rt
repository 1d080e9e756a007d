// The set bits of a map, counted.

#![tactic(auto)]

ghost use Rattle.std.specs.Prelude.{◌≡◌, ◌*◌, ◌-◌, ◌^◌, ◌≤◌, ◌<◌, length};
ghost use Rattle.lists.specs.Counts.{how_many};
ghost use Rattle.image.specs.Bits.{is_set};

use image::bits::bit_at;

// How many bits of the first q bytes are set.
fn count_bytes(map: &[u8], q: usize) -> u32
    requires { (q ≤ length map.now) × (8 * q < 2 ^ 32) }
    ensures { (result ≡ how_many (is_set map.now) 0 (8 * q)) × (result ≤ 8 * q) }
{
    let mut total: u32 = 0;
    for i in 0..q {
        total += map[i].count_ones();
    }
    total
}

// How many bits from one place to before another are set.
fn count_bits(map: &[u8], from: usize, to: usize) -> u32
    requires { (to ≤ 8 * length map.now) × (from ≤ to) × (to < 2 ^ 32) }
    ensures { (result ≡ how_many (is_set map.now) from (to - from)) × (result ≤ to - from) }
{
    let mut total: u32 = 0;
    for j in from..to {
        total += u32::from(bit_at(map, j));
    }
    total
}

// How many bits are set.
pub fn count_set(map: &[u8]) -> u32
    requires { 8 * length map.now < 2 ^ 32 }
    ensures { result ≡ how_many (is_set map.now) 0 (8 * length map.now) }
{
    count_bytes(map, map.len())
}

// How many of the first n bits are set.
pub fn count_first_set(map: &[u8], n: usize) -> u32
    requires { (n ≤ 8 * length map.now) × (n < 2 ^ 32) }
    ensures { result ≡ how_many (is_set map.now) 0 n }
{
    let q = n / 8;
    count_bytes(map, q) + count_bits(map, 8 * q, n)
}
