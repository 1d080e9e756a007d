// Radix-50 words: three codes in a word.
ghost use Rattle.std.specs.Prelude.{◌≡◌};
ghost use Rattle.radix50.specs.Words.{codes, characters_of};

use crate::table::char_of;
use answer::refusal::{Answer, Refusal};

// The three codes of a word.
#[tactic(auto, unfolding(crate::specs::Words::codes))]
pub fn codes_of(w: u16) -> [u8; 3]
    ensures { result ≡ codes w }
{
    [(w / 1600) as u8, (w / 40 % 40) as u8, (w % 40) as u8]
}

// The three characters of a word below 64,000; a larger word is refused.
#[tactic(auto, unfolding(crate::specs::Words::codes, crate::specs::Words::characters_of))]
pub fn word_to_characters(w: u16) -> Answer<[u8; 3]>
    ensures { result ≡ characters_of w }
{
    if 64000 <= w {
        return Err(Refusal::Name);
    }
    let [a, b, c] = codes_of(w);
    Ok([char_of(a), char_of(b), char_of(c)])
}
