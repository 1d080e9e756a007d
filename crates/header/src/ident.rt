// The ident area of a header.
ghost use Rattle.std.specs.Prelude.{◌≡◌, ◌≤◌, length};
ghost use Rattle.header.specs.Fields.{h_idof};
ghost use Rattle.header.specs.Ident.{ident_name};

use answer::types::Name;
use image::words::{byte_or_zero, word_at};

// The name in the ident area of a header that has all of it.
#[tactic(auto, unfolding(crate::specs::Fields::h_idof, crate::specs::Ident::ident_name, crate::specs::Ident::ident_word))]
pub fn ident_name(h: &[u8]) -> Name
    requires { (length h.now ≡ 512) × (h_idof h.now ≤ 250) }
    ensures { result ≡ ident_name h.now }
{
    let at = 2 * usize::from(byte_or_zero(h, 0));
    Name {
        name1: word_at(h, at),
        name2: word_at(h, at + 2),
        name3: word_at(h, at + 4),
        typ: word_at(h, at + 6),
        version: word_at(h, at + 8),
    }
}
