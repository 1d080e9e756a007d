// The lowest run of free blocks of a storage map.

#![tactic(auto)]

ghost use Rattle.std.specs.Prelude.{◌≡◌, ◌*◌, ◌^◌, ◌≤◌, ◌<◌, length};
ghost use Rattle.lowest_run.specs.Runs.{start_of};

use answer::types::Lbn;

// The lowest start of c free blocks in a row, of the n blocks of a storage map. A used block breaks every run over it, so the search goes on past it and
// tests each bit once.
pub fn lowest_run(map: &[u8], n: u32, c: u32) -> Option<Lbn>
    requires { (1 ≤ c) × (n ≤ 8 * length map.now) × (n < 2 ^ 31) × (c < 2 ^ 31) }
    ensures { result ≡ start_of map.now n c }
{
    let mut s: u32 = 0;
    // A while loop: the start moves past the used block that was met, not by one.
    'search: while s + c <= n {
        for k in 0..c {
            if image::bits::bit_at(map, (s + k) as usize) != 1 {
                s += k + 1;
                continue 'search;
            }
        }
        return Some(Lbn(s));
    }
    None
}
