// A map held against the marks of a work area.

#![tactic(auto)]

ghost use Rattle.std.specs.Prelude.{◌≡◌, ◌+◌, ◌*◌, ◌-◌, ◌^◌, ◌≤◌, ◌<◌, eqb, length, MatchOption};
ghost use Rattle.lists.specs.First.{first};
ghost use Rattle.lists.specs.Counts.{one_if};
ghost use Rattle.image.specs.Bits.{is_set};
ghost use Rattle.map_marks.specs.Wanted.{unlike_marks, wanted_low, wanted_high, wanted_byte};

use image::bits::bit_at;

// The bit that a mark wants, with its weight w.
fn weighed(m: u8, w: u8) -> u8
    ensures { (result ≡ w * one_if (eqb m 0)) × (result ≤ w) }
{
    if m == 0 { w } else { 0 }
}

// The first bit from one place to before n that is not as its mark wants it.
fn first_unlike_bit(map: &[u8], area: &[u8], from: usize, n: usize) -> Option<usize>
    requires { (n ≤ length area.now) × (n ≤ 8 * length map.now) × (from ≤ n) }
    ensures { MatchOption result
        (first (unlike_marks map.now area.now n) from (n - from) ≡ n)
        (λ j. (first (unlike_marks map.now area.now n) from (n - from) ≡ j) × (j < n)) }
{
    for j in from..n {
        let wanted = weighed(area[j], 1);
        if bit_at(map, j) != wanted {
            return Some(j);
        }
    }
    None
}

// The low four bits of the byte that the eight marks from mark j on want.
#[tactic(auto, unfolding(crate::specs::Wanted::wanted_low, crate::specs::Wanted::wanted_bit))]
fn wanted_low(area: &[u8], j: usize) -> u8
    requires { j + 8 ≤ length area.now }
    ensures { (result ≡ wanted_low area.now j) × (result < 16) }
{
    weighed(area[j], 1)
        + weighed(area[j + 1], 2)
        + weighed(area[j + 2], 4)
        + weighed(area[j + 3], 8)
}

// The high four bits.
#[tactic(auto, unfolding(crate::specs::Wanted::wanted_high, crate::specs::Wanted::wanted_bit))]
fn wanted_high(area: &[u8], j: usize) -> u8
    requires { j + 8 ≤ length area.now }
    ensures { (result ≡ wanted_high area.now j) × (result ≤ 240) }
{
    weighed(area[j + 4], 16)
        + weighed(area[j + 5], 32)
        + weighed(area[j + 6], 64)
        + weighed(area[j + 7], 128)
}

// The byte that the eight marks from mark j on want.
#[tactic(auto, unfolding(crate::specs::Wanted::wanted_byte))]
fn wanted_byte(area: &[u8], j: usize) -> u8
    requires { j + 8 ≤ length area.now }
    ensures { result ≡ wanted_byte area.now j }
{
    wanted_low(area, j) + wanted_high(area, j)
}

// How many whole bytes of the first n bits are passed until one is not as its marks want it: the first bit that is not lies behind them.
fn like_bytes(map: &[u8], area: &[u8], n: usize) -> usize
    requires { (n ≤ length area.now) × (n ≤ 8 * length map.now) }
    ensures { (8 * result ≤ n) × (first (unlike_marks map.now area.now n) 0 n ≡ first (unlike_marks map.now area.now n) (8 * result) (n - 8 * result)) }
{
    for i in 0..n / 8 {
        if map[i] != wanted_byte(area, 8 * i) {
            return i;
        }
    }
    n / 8
}

// The first bit before n that is not as its mark wants it.
fn first_unlike_below(map: &[u8], area: &[u8], n: usize) -> Option<usize>
    requires { (n ≤ length area.now) × (n ≤ 8 * length map.now) }
    ensures { MatchOption result
        (first (unlike_marks map.now area.now n) 0 n ≡ n)
        (λ j. (first (unlike_marks map.now area.now n) 0 n ≡ j) × (j < n)) }
{
    let q = like_bytes(map, area, n);
    first_unlike_bit(map, area, 8 * q, n)
}

// The first bit from one place to before another that is set.
fn first_set(map: &[u8], from: usize, end: usize) -> Option<usize>
    requires { (end ≤ 8 * length map.now) × (from ≤ end) }
    ensures { MatchOption result
        (first (is_set map.now) from (end - from) ≡ end)
        (λ j. (first (is_set map.now) from (end - from) ≡ j) × (j < end)) }
{
    for j in from..end {
        if bit_at(map, j) == 1 {
            return Some(j);
        }
    }
    None
}

// The first bit before the end that is not as the marks of n blocks want it.
pub fn first_unlike(map: &[u8], area: &[u8], n: usize, end: usize) -> Option<usize>
    requires { (n ≤ length area.now) × (n ≤ end) × (end ≤ 8 * length map.now) × (end < 2 ^ 63) }
    ensures { MatchOption result
        (first (unlike_marks map.now area.now n) 0 end ≡ end)
        (λ j. (first (unlike_marks map.now area.now n) 0 end ≡ j) × (j < end)) }
{
    if let Some(j) = first_unlike_below(map, area, n) {
        return Some(j);
    }
    first_set(map, n, end)
}
