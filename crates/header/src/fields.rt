// The fields of a header that calls on files read. A byte past the end counts as 0.
ghost use Rattle.std.specs.Prelude.{◌≡◌, ◌≤◌};
ghost use Rattle.header.specs.Fields.{h_fseq, user_flags, system_flags, map_area, segment, m_efnu, m_efsq, m_use, m_max};

use image::words::{byte_or_zero, word_or_zero};

// H.FSEQ, the sequence number.
#[tactic(auto, unfolding(crate::specs::Fields::h_fseq))]
pub fn h_fseq(h: &[u8]) -> u16
    ensures { result ≡ h_fseq h.now }
{
    word_or_zero(h, 4)
}

// The user flags.
#[tactic(auto, unfolding(crate::specs::Fields::user_flags))]
pub fn user_flags(h: &[u8]) -> u8
    ensures { result ≡ user_flags h.now }
{
    byte_or_zero(h, 12)
}

// The system flags.
#[tactic(auto, unfolding(crate::specs::Fields::system_flags))]
pub fn system_flags(h: &[u8]) -> u8
    ensures { result ≡ system_flags h.now }
{
    byte_or_zero(h, 13)
}

// The byte at which the map area begins.
#[tactic(auto, unfolding(crate::specs::Fields::map_area, crate::specs::Fields::h_mpof))]
pub fn map_area(h: &[u8]) -> usize
    ensures { (result ≡ map_area h.now) × (result ≤ 510) }
{
    2 * usize::from(byte_or_zero(h, 1))
}

// The segment number.
#[tactic(auto, unfolding(crate::specs::Fields::segment))]
pub fn segment(h: &[u8]) -> u8
    ensures { result ≡ segment h.now }
{
    byte_or_zero(h, map_area(h))
}

// M.EFNU, the number of the extension header; 0 if there is none.
#[tactic(auto, unfolding(crate::specs::Fields::m_efnu))]
pub fn m_efnu(h: &[u8]) -> u16
    ensures { result ≡ m_efnu h.now }
{
    word_or_zero(h, map_area(h) + 2)
}

// M.EFSQ, the sequence number of the extension header.
#[tactic(auto, unfolding(crate::specs::Fields::m_efsq))]
pub fn m_efsq(h: &[u8]) -> u16
    ensures { result ≡ m_efsq h.now }
{
    word_or_zero(h, map_area(h) + 4)
}

// M.USE, the words of the pointers in use.
#[tactic(auto, unfolding(crate::specs::Fields::m_use))]
pub fn m_use(h: &[u8]) -> u8
    ensures { result ≡ m_use h.now }
{
    byte_or_zero(h, map_area(h) + 8)
}

// M.MAX, the words that there are for pointers.
#[tactic(auto, unfolding(crate::specs::Fields::m_max))]
pub fn m_max(h: &[u8]) -> u8
    ensures { result ≡ m_max h.now }
{
    byte_or_zero(h, map_area(h) + 9)
}
