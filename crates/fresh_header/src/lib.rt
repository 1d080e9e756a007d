// The header of a new file.

#![tactic(auto)]

ghost use Rattle.std.specs.Prelude.{◌≡◌, length, set};
ghost use Rattle.fresh_header.specs.Fresh.{sealed, identified, named, mapped, fresh_header};

use answer::types::Name;
use image::sums::checksum;
use stores::{clear, put_word};

// The checksum, made right.
#[tactic(auto, unfolding(crate::specs::Fresh::sealed))]
pub fn seal(h: &mut [u8])
    requires { length h.old ≡ 512 }
    ensures { h.new ≡ sealed h.old }
{
    let sum = checksum(h, 255);
    put_word(h, 510, sum);
}

// H.IDOF and H.MPOF.
fn put_offsets(h: &mut [u8])
    requires { length h.old ≡ 512 }
    ensures { h.new ≡ set (set h.old 0 23) 1 46 }
{
    h[0] = 23;
    h[1] = 46;
}

// The offsets of the areas, the file ID, the level, the owner and the protection.
#[tactic(auto, unfolding(crate::specs::Fresh::identified))]
fn identify(h: &mut [u8], n: u16, sequence: u16, owner: u16, protection: u16)
    requires { length h.old ≡ 512 }
    ensures { h.new ≡ identified h.old n sequence owner protection }
{
    put_offsets(h);
    put_word(h, 2, n);
    put_word(h, 4, sequence);
    put_word(h, 6, 257);
    put_word(h, 8, owner);
    put_word(h, 10, protection);
}

// The name, the type and the version.
#[tactic(auto, unfolding(crate::specs::Fresh::named))]
fn put_name(h: &mut [u8], name: Name)
    requires { length h.old ≡ 512 }
    ensures { h.new ≡ named h.old name }
{
    put_word(h, 46, name.name1);
    put_word(h, 48, name.name2);
    put_word(h, 50, name.name3);
    put_word(h, 52, name.typ);
    put_word(h, 54, name.version);
}

// M.CTSZ, M.LBSZ and M.MAX.
#[tactic(auto, unfolding(crate::specs::Fresh::mapped))]
fn put_map(h: &mut [u8])
    requires { length h.old ≡ 512 }
    ensures { h.new ≡ mapped h.old }
{
    h[98] = 1;
    h[99] = 3;
    h[101] = 204;
}

// The header of a new file of number n, which covers nothing, in the stead of what was there.
#[tactic(auto, unfolding(crate::specs::Fresh::fresh_header))]
pub fn put_fresh(h: &mut [u8], n: u16, sequence: u16, owner: u16, protection: u16, name: Name)
    requires { length h.old ≡ 512 }
    ensures { h.new ≡ fresh_header n sequence owner protection name }
{
    clear(h);
    identify(h, n, sequence, owner, protection);
    put_name(h, name);
    put_map(h);
    seal(h);
}
