// Bytes and words, low byte first, of a list of bytes.
ghost use Rattle.std.specs.Prelude.{◌≡◌, ◌+◌, ◌<◌, length};
ghost use Rattle.image.specs.Words.{byte_at, word_at};

// The byte at a place; 0 past the end.
pub fn byte_or_zero(b: &[u8], at: usize) -> u8
    ensures { result ≡ byte_at b.now at }
{
    if at < b.len() { b[at] } else { 0 }
}

// The word at a place, both of whose bytes the list has.
#[tactic(auto, unfolding(crate::specs::Words::word_at))]
pub fn word_at(b: &[u8], at: usize) -> u16
    requires { at + 1 < length b.now }
    ensures { result ≡ word_at b.now at }
{
    u16::from(b[at]) + 256 * u16::from(b[at + 1])
}

// The word at a place; a byte past the end counts as 0.
#[tactic(auto, unfolding(crate::specs::Words::word_at))]
pub fn word_or_zero(b: &[u8], at: usize) -> u16
    ensures { result ≡ word_at b.now at }
{
    if b.len() <= at {
        return 0;
    }
    u16::from(byte_or_zero(b, at)) + 256 * u16::from(byte_or_zero(b, at + 1))
}
