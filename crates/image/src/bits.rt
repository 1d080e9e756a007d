// The bits of a map: eight to a byte, the lowest first.
ghost use Rattle.std.specs.Prelude.{◌≡◌, ◌/◌, ◌<◌, length};
ghost use Rattle.image.specs.Bits.{bit_at};

// Bit j.
#[tactic(auto, unfolding(crate::specs::Bits::bit_at, crate::specs::Bits::bit_of))]
pub fn bit_at(map: &[u8], j: usize) -> u8
    requires { j / 8 < length map.now }
    ensures { result ≡ bit_at map.now j }
{
    let k = (j % 8) as u8;
    (map[j / 8] >> k) % 2
}
