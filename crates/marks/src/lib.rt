// The marks of a work area: counts that are capped at 2, a byte each. Nothing here knows of volumes.

#![tactic(auto)]

ghost use Rattle.std.specs.Prelude.{◌≡◌, ℕ, ◌+◌, ◌^◌, ◌≤◌, ◌<◌, length, MatchOption};
ghost use Rattle.lists.specs.First.{first};
ghost use Rattle.lists.specs.Lists.{numbers_from};
ghost use Rattle.lists.specs.Counts.{how_many};
ghost use Rattle.image.specs.Words.{byte_at};
ghost use Rattle.marks.specs.Marks.{cleared, raised, raised_by, lowered, marked_twice, marked};

// The first k marks 0.
#[tactic(auto, unfolding(crate::specs::Marks::cleared, image::specs::Stores::zeros))]
pub fn clear_first(area: &mut [u8], k: usize)
    requires { k ≤ length area.old }
    ensures { area.new ≡ cleared area.old k }
{
    area[..k].fill(0);
}

// Mark i raised by one, capped at 2.
#[tactic(auto, unfolding(crate::specs::Marks::raised))]
pub fn raise(area: &mut [u8], i: usize)
    requires { i < length area.old }
    ensures { area.new ≡ raised area.old i }
{
    area[i] = area[i].min(1) + 1;
}

// The c marks from mark s on, each raised by one, capped at 2.
pub fn raise_run(area: &mut [u8], s: usize, c: usize)
    requires { (s + c ≤ length area.old) × (s + c < 2 ^ 64) }
    ensures { area.new ≡ raised_by area.old (numbers_from s c) }
{
    for i in 0..c {
        raise(area, s + i);
    }
}

// The first k marks capped at 1.
pub fn lower_first(area: &mut [u8], k: usize)
    requires { k ≤ length area.old }
    ensures { area.new ≡ lowered area.old k }
{
    for i in 0..k {
        area[i] = area[i].min(1);
    }
}

// The highest of the first k marks.
fn highest(area: &[u8], k: usize) -> u8
    requires { k ≤ length area.now }
    ensures { (j : ℕ) → j < k → byte_at area.now j ≤ result }
{
    // A for loop: `max` of an iterator takes the first mark apart, and the vectors of marks behind it lie askew.
    let mut top: u8 = 0;
    for i in 0..k {
        top = top.max(area[i]);
    }
    top
}

// The first of k marks that says "covered by two places". One mark after the other.
fn search_twice(area: &[u8], k: usize) -> Option<usize>
    requires { k ≤ length area.now }
    ensures { MatchOption result (first (marked_twice area.now) 0 k ≡ k) (λ i. (first (marked_twice area.now) 0 k ≡ i) × (i < k)) }
{
    area[..k].iter().position(|m| 2 <= *m)
}

// The first of k marks that says "covered by two places". That none does is seen many marks at a time.
pub fn first_twice(area: &[u8], k: usize) -> Option<usize>
    requires { k ≤ length area.now }
    ensures { MatchOption result (first (marked_twice area.now) 0 k ≡ k) (λ i. (first (marked_twice area.now) 0 k ≡ i) × (i < k)) }
{
    if highest(area, k) < 2 {
        return None;
    }
    search_twice(area, k)
}

// How many of the first k marks say "covered".
pub fn count_marked(area: &[u8], k: usize) -> u32
    requires { (k ≤ length area.now) × (k < 2 ^ 32) }
    ensures { result ≡ how_many (marked area.now) 0 k }
{
    let mut total: u32 = 0;
    for i in 0..k {
        total += u32::from(area[i].min(1));
    }
    total
}
