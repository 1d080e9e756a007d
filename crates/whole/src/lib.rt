// Whether a header is whole: the first test that it does not meet.

#![tactic(auto)]

ghost use Rattle.std.specs.Prelude.{◌≡◌, true, ◌+◌, ◌<◌, length};
ghost use Rattle.lists.specs.First.{below};
ghost use Rattle.pointers.specs.Pointers.{pointers, Fits};
ghost use Rattle.whole.specs.Whole.{ends_inside, link_tests, map_tests, first_unmet, fault};

use answer::types::FileNumber;
use header::fields::{m_efnu, m_efsq};
use image::sums::checksum;
use image::words::word_at;
use pointers::{first_pointer, pointer_count, pointer_lbn, pointer_number};

// Whether each pointer ends below the number of blocks.
#[tactic(auto, using(lists::proofs::BelowLaws::below_none, lists::proofs::BelowLaws::below_more), unfolding(crate::specs::Whole::ends_inside))]
fn pointers_end_inside(h: &[u8], blocks: u32) -> bool
    requires { Fits h.now }
    ensures { result ≡ below (pointers h.now) (ends_inside blocks h.now) }
{
    let at = first_pointer(h);
    let number = pointer_number(h);
    for p in 0..number {
        if blocks < pointer_lbn(h, at + 4 * p).0 + pointer_count(h, at + 4 * p) {
            return false;
        }
    }
    true
}

// The tests 6 to 12, on the map area. H.MPOF above 250 fails test 6 whatever M.MAX is, and nothing past the header is read.
#[tactic(auto, unfolding(crate::specs::Whole::map_tests, crate::specs::Whole::first_unmet, header::specs::Fields::h_mpof, header::specs::Fields::map_area, header::specs::Fields::m_max, header::specs::Fields::m_use, header::specs::Fields::m_ctsz, header::specs::Fields::m_lbsz, header::specs::Fields::m_ervn, pointers::specs::Pointers::pointers_at, pointers::specs::Pointers::pointers))]
fn map_fault(h: &[u8], blocks: u32) -> u8
    requires { length h.now ≡ 512 }
    ensures { result ≡ first_unmet 6 (map_tests blocks h.now) }
{
    let mpof = usize::from(h[1]);
    if 250 < mpof {
        return 6;
    }
    let m = 2 * mpof;
    let most = h[m + 9];
    if 250 < mpof + usize::from(most) {
        return 6;
    }
    let used = h[m + 8];
    let filled = (used % 2 == 0) & (used <= most);
    if !filled {
        return 7;
    }
    let shaped = (h[m + 6] == 1) & (h[m + 7] == 3) & (h[m + 1] == 0);
    if shaped {
        return link_fault(h, blocks);
    }
    if h[m + 6] != 1 {
        return 8;
    }
    if h[m + 7] != 3 {
        return 9;
    }
    10
}

// The tests 11 and 12.
#[tactic(auto, unfolding(crate::specs::Whole::link_tests, crate::specs::Whole::first_unmet))]
fn link_fault(h: &[u8], blocks: u32) -> u8
    requires { Fits h.now }
    ensures { result ≡ first_unmet 11 (link_tests blocks h.now) }
{
    if m_efnu(h) == 0 && m_efsq(h) != 0 {
        return 11;
    }
    if !pointers_end_inside(h, blocks) {
        return 12;
    }
    0
}

// The first test, 1 to 12, that the header does not meet for file number n on a volume of so many blocks; 0 where it is whole.
#[tactic(auto, unfolding(crate::specs::Whole::fault, crate::specs::Whole::tests, crate::specs::Whole::first_unmet, header::specs::Fields::h_flev, header::specs::Fields::h_fnum, header::specs::Fields::h_idof, header::specs::Fields::h_mpof))]
pub fn fault(h: &[u8], blocks: u32, n: FileNumber) -> u8
    requires { length h.now ≡ 512 }
    ensures { result ≡ fault blocks n.0 h.now }
{
    if checksum(h, 255) != word_at(h, 510) {
        return 1;
    }
    if word_at(h, 6) != 257 {
        return 2;
    }
    if u32::from(word_at(h, 2)) != n.0 {
        return 3;
    }
    if h[0] < 23 {
        return 4;
    }
    if h[1] < h[0] {
        return 5;
    }
    map_fault(h, blocks)
}
