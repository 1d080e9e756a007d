// A header that a call changes: one retrieval pointer more, or its slot cleared.

#![tactic(auto)]

ghost use Rattle.std.specs.Prelude.{◌≡◌, length, ◌+◌, ◌≤◌, ◌<◌, ◌^◌};
ghost use Rattle.header.specs.Fields.{h_mpof, map_area, m_use, m_max};
ghost use Rattle.header_edit.specs.Cleared.{cleared_slot};
ghost use Rattle.header_edit.specs.Extended.{put_pointer, put_use, extended_header};

use answer::types::Lbn;
use fresh_header::seal;
use header::fields::{h_fseq, m_use, map_area};
use pointers::{first_pointer, pointer_number};
use stores::{clear, put_word};

// Every byte 0 but those of the sequence word.
#[tactic(auto, unfolding(crate::specs::Cleared::cleared_slot))]
pub fn clear_slot(h: &mut [u8])
    requires { length h.old ≡ 512 }
    ensures { h.new ≡ cleared_slot h.old }
{
    let sequence = h_fseq(h);
    clear(h);
    put_word(h, 4, sequence);
}

// The pointer to the c blocks from an LBN on, at a byte of the header.
#[tactic(auto, unfolding(crate::specs::Extended::put_pointer))]
fn put_pointer(h: &mut [u8], at: usize, lbn: Lbn, c: u32)
    requires { (at + 4 ≤ length h.old) × (lbn.0 < 2 ^ 24) × (1 ≤ c) × (c ≤ 256) }
    ensures { h.new ≡ put_pointer h.old at lbn.0 c }
{
    let s = lbn.0;
    h[at] = (s / 65536) as u8;
    h[at + 1] = (c - 1) as u8;
    put_word(h, at + 2, (s % 65536) as u16);
}

// M.USE, made so many words.
#[tactic(auto, unfolding(crate::specs::Extended::put_use))]
fn put_use(h: &mut [u8], words: u8)
    requires { map_area h.old + 8 < length h.old }
    ensures { h.new ≡ put_use h.old words }
{
    let at = map_area(h);
    h[at + 8] = words;
}

// The pointer to the c blocks from an LBN on, after the last that the header has.
pub fn add_pointer(h: &mut [u8], lbn: Lbn, c: u32)
    requires { (length h.old ≡ 512) × (h_mpof h.old + 5 + m_max h.old ≤ 255) × (m_use h.old + 2 ≤ m_max h.old) × (lbn.0 < 2 ^ 24) × (1 ≤ c) × (c ≤ 256) }
    ensures { h.new ≡ extended_header h.old lbn.0 c }
{
    let first = first_pointer(h);
    let number = pointer_number(h);
    let words = m_use(h);
    put_pointer(h, first + 4 * number, lbn, c);
    put_use(h, words + 2);
    seal(h);
}
