// The flags of a header.
ghost use Rattle.std.specs.Prelude.{◌≡◌};
ghost use Rattle.header.specs.Flags.{locked, is_fixed};

use crate::fields::{system_flags, user_flags};

// Whether a flag of the first header refuses access.
#[tactic(auto, unfolding(crate::specs::Flags::locked, crate::specs::Flags::has_flag))]
pub fn is_locked(h: &[u8]) -> bool
    ensures { result ≡ locked h.now }
{
    user_flags(h) / 64 % 2 == 1 || system_flags(h) / 128 % 2 == 1
}

// Whether the file is contiguous, and so of a fixed size.
#[tactic(auto, unfolding(crate::specs::Flags::is_fixed, crate::specs::Flags::has_flag))]
pub fn is_fixed(h: &[u8]) -> bool
    ensures { result ≡ is_fixed h.now }
{
    user_flags(h) / 128 % 2 == 1
}
