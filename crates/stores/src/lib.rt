// Stores: words, zeros, the bits of a map, and of a map that lies in blocks of an image.

#![tactic(auto)]

ghost use Rattle.std.specs.Prelude.{◌≡◌, ◌+◌, ◌/◌, ◌^◌, ◌≤◌, ◌<◌, ◌*◌, length, [], ◌∷◌};
ghost use Rattle.lists.specs.Lists.{numbers_from};
ghost use Rattle.image.specs.Stores.{with_bit, put_bit, put_bits, put_word, zeros, put_map_bits};

use answer::types::Lbn;

// The byte b with its bit k made v.
fn with_bit(b: u8, k: u8, v: u8) -> u8
    requires { (k < 8) × (v < 2) }
    ensures { result ≡ with_bit b k v }
{
    let old = (b >> k) % 2;
    b - (old << k) + (v << k)
}

// Bit j made v.
#[tactic(auto, unfolding(image::specs::Stores::put_bit))]
pub fn put_bit(map: &mut [u8], j: usize, v: u8)
    requires { (j / 8 < length map.old) × (v < 2) }
    ensures { map.new ≡ put_bit map.old j v }
{
    let i = j / 8;
    let k = (j % 8) as u8;
    map[i] = with_bit(map[i], k, v);
}

// The c bits from bit s on, each made v.
pub fn put_run(map: &mut [u8], s: usize, c: usize, v: u8)
    requires { ((s + c + 7) / 8 ≤ length map.old) × (s + c < 2 ^ 64) × (v < 2) }
    ensures { map.new ≡ put_bits map.old (numbers_from s c) v }
{
    for i in 0..c {
        put_bit(map, s + i, v);
    }
}

// The word v at a place, low byte first.
#[tactic(auto, unfolding(image::specs::Stores::put_word))]
pub fn put_word(b: &mut [u8], at: usize, v: u16)
    requires { at + 1 < length b.old }
    ensures { b.new ≡ put_word b.old at v }
{
    b[at] = (v % 256) as u8;
    b[at + 1] = (v / 256) as u8;
}

// Every byte 0.
#[tactic(auto, unfolding(image::specs::Stores::zeros))]
pub fn clear(b: &mut [u8])
    ensures { b.new ≡ zeros (length b.old) }
{
    b.fill(0);
}

// Bit j of the map in the q blocks from an LBN on made v.
pub fn put_map_bit(image: &mut [u8], lbn: Lbn, q: u32, j: u32, v: u8)
    requires { (512 * (lbn.0 + q) ≤ length image.old) × (j < 4096 * q) × (v < 2) }
    ensures { image.new ≡ put_map_bits image.old lbn.0 q (j ∷ []) v }
{
    let from = 512 * (lbn.0 as usize);
    let to = from + 512 * (q as usize);
    put_bit(&mut image[from..to], j as usize, v);
}

// The c bits from bit s on of the map in the q blocks from an LBN on, each made v.
pub fn put_map_run(image: &mut [u8], lbn: Lbn, q: u32, s: u32, c: u32, v: u8)
    requires { (512 * (lbn.0 + q) ≤ length image.old) × (s + c ≤ 4096 * q) × (v < 2) }
    ensures { image.new ≡ put_map_bits image.old lbn.0 q (numbers_from s c) v }
{
    let from = 512 * (lbn.0 as usize);
    let to = from + 512 * (q as usize);
    put_run(&mut image[from..to], s as usize, c as usize, v);
}
