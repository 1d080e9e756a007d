// The attributes that FCS keeps in a first header, and the end of file that they give.
ghost use Rattle.std.specs.Prelude.{◌≡◌, ◌+◌, ◌*◌, ◌<◌, length};
ghost use Rattle.image.specs.Words.{word_at};
ghost use Rattle.header.specs.Attributes.{f_efbk, end_byte, end_of};

use answer::types::Vbn;
use image::words::word_at;

// Two words of a header as one number, the high word first.
pub fn long_at(h: &[u8], at: usize) -> u32
    requires { at + 3 < length h.now }
    ensures { result ≡ 65536 * word_at h.now at + word_at h.now (at + 2) }
{
    65536 * u32::from(word_at(h, at)) + u32::from(word_at(h, at + 2))
}

// F.EFBK, the VBN in which the end of file lies; 0 where there is none.
#[tactic(auto, unfolding(crate::specs::Attributes::f_efbk))]
pub fn f_efbk(h: &[u8]) -> Vbn
    requires { length h.now ≡ 512 }
    ensures { result.0 ≡ f_efbk h.now }
{
    Vbn(long_at(h, 22))
}

// How many bytes lie before the end of file.
#[tactic(auto, unfolding(crate::specs::Attributes::end_byte, crate::specs::Attributes::f_ffby))]
pub fn end_byte(h: &[u8]) -> u64
    requires { (length h.now ≡ 512) × (f_efbk h.now ≡ 0 → ⊥) }
    ensures { result ≡ end_byte h.now }
{
    512 * (u64::from(f_efbk(h).0) - 1) + u64::from(word_at(h, 26))
}

// How many bytes of a file of so many blocks, whose first header is h, lie before its end.
#[tactic(auto, unfolding(crate::specs::Attributes::end_of))]
pub fn end_of(h: &[u8], count: u32) -> u64
    requires { length h.now ≡ 512 }
    ensures { result ≡ end_of h.now count }
{
    let all = 512 * u64::from(count);
    if f_efbk(h).0 == 0 {
        all
    } else {
        end_byte(h).min(all)
    }
}
