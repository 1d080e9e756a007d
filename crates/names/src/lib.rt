// Proper names.

#![tactic(auto)]

ghost use Rattle.std.specs.Prelude.{◌≡◌, cond, ◌&&◌, leb, length};
ghost use Rattle.names.specs.Names.{blank, filled, kept, name_codes, proper};

use answer::types::Name;
use radix50::{codes_of, is_name_code};

// The nine codes of the three name words.
#[tactic(auto, unfolding(crate::specs::Names::name_codes, radix50::specs::Words::codes))]
pub fn name_codes(n: Name) -> [u8; 9]
    ensures { result ≡ name_codes n }
{
    let [a, b, c] = codes_of(n.name1);
    let [d, e, f] = codes_of(n.name2);
    let [g, h, i] = codes_of(n.name3);
    [a, b, c, d, e, f, g, h, i]
}

// Whether codes are blanks only.
pub fn is_blank(cs: &[u8]) -> bool
    ensures { result ≡ blank cs.now }
{
    cs.iter().all(|c| *c == 0)
}

// How many characters filled codes have; 10, which is more than a part may have, where they are not filled.
#[tactic(auto, using(std::proofs::lemmas::Grind::common_steps, crate::proofs::NameLaws::filled_walk))]
pub fn filled_length(cs: &[u8]) -> usize
    ensures { result ≡ cond (filled cs.now) (length (kept cs.now)) 10 }
{
    for (i, c) in cs.iter().enumerate() {
        if *c == 0 {
            return if is_blank(&cs[i..]) { i } else { 10 };
        }
        if !is_name_code(*c) {
            return 10;
        }
    }
    cs.len()
}

// Whether a name is proper, by the lengths of its parts and its version.
pub fn is_proper_parts(name: usize, typ: usize, version: u16) -> bool
    ensures { result ≡ (leb 1 name && leb name 9 && leb typ 3 && leb 1 version && leb version 32767) }
{
    1 <= name && name <= 9 && typ <= 3 && 1 <= version && version <= 32767
}

// Whether a name is proper.
pub fn is_proper(n: Name) -> bool
    ensures { result ≡ proper n }
{
    let name = filled_length(&name_codes(n));
    let typ = filled_length(&codes_of(n.typ));
    is_proper_parts(name, typ, n.version)
}
