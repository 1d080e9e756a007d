// The home block: its fields, what makes a block one, and the search for it.

#![tactic(auto)]

ghost use Rattle.std.specs.Prelude.{◌≡◌, ◌+◌, ◌*◌, ◌^◌, ◌≤◌, ◌<◌, not, ◌&&◌, ◌||◌, eqb, length, MatchOption};
ghost use Rattle.lists.specs.First.{below};
ghost use Rattle.home.specs.Home.{h_ibsz, h_iblb, h_fmax, h_sbcl, h_vlev, indf_at, is_home, position, positions, home_index};

use answer::types::Lbn;
use image::blocks::block;
use image::sums::{checksum, checksum_on};
use image::words::word_at;

// H.INDF of a home block.
const INDF: [u8; 12] = *b"DECFILE11A  ";

// H.IBSZ.
#[tactic(auto, unfolding(crate::specs::Home::h_ibsz))]
pub fn h_ibsz(b: &[u8]) -> u16
    requires { length b.now ≡ 512 }
    ensures { result ≡ h_ibsz b.now }
{
    word_at(b, 0)
}

// H.IBLB, high word first.
#[tactic(auto, unfolding(crate::specs::Home::h_iblb))]
pub fn h_iblb(b: &[u8]) -> Lbn
    requires { length b.now ≡ 512 }
    ensures { result.0 ≡ h_iblb b.now }
{
    let high = u32::from(word_at(b, 2));
    let low = u32::from(word_at(b, 4));
    Lbn(65536 * high + low)
}

// H.FMAX.
#[tactic(auto, unfolding(crate::specs::Home::h_fmax))]
pub fn h_fmax(b: &[u8]) -> u16
    requires { length b.now ≡ 512 }
    ensures { result ≡ h_fmax b.now }
{
    word_at(b, 6)
}

// Whether H.INDF is that of a home block.
fn has_indf(b: &[u8]) -> bool
    requires { length b.now ≡ 512 }
    ensures { result ≡ below 12 (indf_at b.now) }
{
    b[496..].starts_with(&INDF)
}

// Whether H.IBSZ, H.IBLB, H.FMAX, H.SBCL and H.VLEV are those of a home block.
#[tactic(auto, unfolding(crate::specs::Home::h_sbcl, crate::specs::Home::h_vlev))]
fn has_home_fields(b: &[u8]) -> bool
    requires { length b.now ≡ 512 }
    ensures { result ≡ (not (eqb (h_ibsz b.now) 0)
        && not (eqb (h_iblb b.now) 0)
        && not (eqb (h_fmax b.now) 0)
        && eqb (h_sbcl b.now) 1
        && (eqb (h_vlev b.now) 257 || eqb (h_vlev b.now) 258)) }
{
    h_ibsz(b) != 0
        && h_iblb(b).0 != 0
        && h_fmax(b) != 0
        && word_at(b, 8) == 1
        && matches!(word_at(b, 12), 257 | 258)
}

// Whether a block is a home block. What is cheap to see is seen first, and the words of H.CHK1 are added once.
#[tactic(auto, using(crate::proofs::HomeLaws::is_home_by))]
pub fn is_home(b: &[u8]) -> bool
    requires { length b.now ≡ 512 }
    ensures { result ≡ is_home b.now }
{
    if !has_home_fields(b) || !has_indf(b) {
        return false;
    }
    let chk1 = checksum(b, 29);
    chk1 == word_at(b, 58) && checksum_on(b, chk1, 29, 255) == word_at(b, 510)
}

// The LBN of home position i, from 0.
#[tactic(auto, using(crate::proofs::HomeLaws::position_first, crate::proofs::HomeLaws::position_later))]
pub fn position(i: u32) -> Lbn
    requires { i < 2 ^ 24 }
    ensures { result.0 ≡ position i }
{
    if i == 0 { Lbn(1) } else { Lbn(256 * i) }
}

// Which position has the home, from 0, on a volume of n blocks.
pub fn home_index(image: &[u8], n: u32) -> Option<u32>
    requires { (length image.now ≡ 512 * n) × (100 ≤ n) × (n ≤ 1044480) }
    ensures { MatchOption result (home_index image.now ≡ positions n) (λ i. (home_index image.now ≡ i) × (i < positions n)) }
{
    for i in 0..n.div_ceil(256) {
        if is_home(block(image, position(i))) {
            return Some(i);
        }
    }
    None
}
