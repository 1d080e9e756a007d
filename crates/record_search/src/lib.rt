// The search for a record, in blocks that lie one behind the other.

#![tactic(auto)]

ghost use Rattle.std.specs.Prelude.{◌≡◌, ◌+◌, ◌*◌, ◌-◌, ◌≤◌, length};
ghost use Rattle.lists.specs.First.{first};
ghost use Rattle.records.specs.Records.{wanted_in};
ghost use Rattle.records.specs.declared.Wanted.TheVariants.{Any, Named};

use answer::types::Name;
use image::words::word_at;
use records::Wanted;

// Whether record i is not empty.
#[tactic(auto, using(records::proofs::RecordLaws::filled_in))]
fn is_filled(b: &[u8], i: u32) -> bool
    requires { 16 * i + 16 ≤ length b.now }
    ensures { result ≡ wanted_in b.now Any i }
{
    word_at(b, 16 * (i as usize)) != 0
}

// Whether record i is not empty and has this name. Most records differ in the version or in the first word of the name, so these are read first.
#[tactic(auto, using(records::proofs::RecordLaws::named_in))]
fn is_named(b: &[u8], i: usize, name: Name) -> bool
    requires { 16 * i + 16 ≤ length b.now }
    ensures { result ≡ wanted_in b.now (Named name) i }
{
    let at = 16 * i;
    word_at(b, at + 14) == name.version
        && word_at(b, at + 6) == name.name1
        && (word_at(b, at) != 0)
            & (word_at(b, at + 8) == name.name2)
            & (word_at(b, at + 10) == name.name3)
            & (word_at(b, at + 12) == name.typ)
}

// Of the records from one place to before another, the first that is not empty; the second place where none is.
fn first_filled(b: &[u8], from: u32, to: u32) -> u32
    requires { (from ≤ to) × (16 * to ≤ length b.now) }
    ensures { result ≡ first (wanted_in b.now Any) from (to - from) }
{
    for i in from..to {
        if is_filled(b, i) {
            return i;
        }
    }
    to
}

// The same, for a record that is not empty and has this name.
fn first_named(b: &[u8], from: u32, to: u32, name: Name) -> u32
    requires { (from ≤ to) × (16 * to ≤ length b.now) }
    ensures { result ≡ first (wanted_in b.now (Named name)) from (to - from) }
{
    let end = to as usize;
    let mut left = end - (from as usize);
    // A while loop: it counts down what is left, which makes the shortest loop.
    while 0 < left {
        if is_named(b, end - left, name) {
            return (end - left) as u32;
        }
        left -= 1;
    }
    to
}

// The same, for a record that is wanted.
pub fn first_in(b: &[u8], from: u32, to: u32, w: Wanted) -> u32
    requires { (from ≤ to) × (16 * to ≤ length b.now) }
    ensures { result ≡ first (wanted_in b.now w) from (to - from) }
{
    match w {
        Wanted::Any => first_filled(b, from, to),
        Wanted::Named(name) => first_named(b, from, to, name),
    }
}
