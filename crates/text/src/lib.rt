// A name as text.

#![tactic(auto)]

ghost use Rattle.std.specs.Prelude.{◌≡◌, true, ◌+◌, ◌≤◌, ◌<◌, length};
ghost use Rattle.image.specs.Stores.{splice};
ghost use Rattle.names.specs.Names.{filled, kept};
ghost use Rattle.text.specs.Text.{decimal, text_of, name_to_text_answer, text_after};

use answer::refusal::{Answer, Refusal};
use answer::types::Name;
use names::{filled_length, is_proper_parts, name_codes};
use radix50::{char_of, codes_of};

// Writes the characters of filled codes, of which there are k.
fn put_codes(text: &mut [u8], at: usize, cs: &[u8], k: usize)
    requires { (filled cs.now ≡ true) × (k ≡ length (kept cs.now)) × (at + k ≤ length text.old) }
    ensures { text.new ≡ splice text.old at (kept cs.now) }
{
    for i in 0..k {
        text[at + i] = char_of(cs[i]);
    }
}

// How many decimal digits a number has.
#[tactic(auto, using(crate::proofs::TextLaws::decimal_length_one, crate::proofs::TextLaws::decimal_length_more))]
fn digit_count(v: u32) -> usize
    requires { v < 100000 }
    ensures { result ≡ length (decimal v) }
{
    match v {
        0..=9 => 1,
        10..=99 => 2,
        100..=999 => 3,
        1000..=9999 => 4,
        _ => 5,
    }
}

// Writes a number in decimal, in its k digits, the last one first.
fn put_decimal(text: &mut [u8], at: usize, v: u32, k: usize)
    requires { (v < 100000) × (k ≡ length (decimal v)) × (at + k ≤ length text.old) }
    ensures { text.new ≡ splice text.old at (decimal v) }
{
    let mut left = v;
    for i in (0..k).rev() {
        text[at + i] = b'0' + (left % 10) as u8;
        left /= 10;
    }
}

// Writes the text of a name, given by its codes and their lengths, and answers its length.
fn put_name(
    text: &mut [u8],
    name: &[u8],
    long: usize,
    typ: &[u8],
    short: usize,
    version: u16,
) -> usize
    requires in_bounds { (19 ≤ length text.old) × (long ≤ 9) × (short ≤ 3) }
    requires name_value { (filled name.now ≡ true) × (long ≡ length (kept name.now)) }
    requires typ_value { (filled typ.now ≡ true) × (short ≡ length (kept typ.now)) }
    ensures value { result ≡ length (text_of name.now typ.now version) }
    ensures text_after { text.new ≡ splice text.old 0 (text_of name.now typ.now version) }
{
    put_codes(text, 0, name, long);
    text[long] = b'.';
    let at = long + 1;
    put_codes(text, at, typ, short);
    let semicolon = at + short;
    text[semicolon] = b';';
    let v = u32::from(version);
    let k = digit_count(v);
    let next = semicolon + 1;
    put_decimal(text, next, v, k);
    next + k
}

// Writes the text of a name into a buffer of at least 19 bytes; the bytes after it stay.
#[tactic(auto, using(crate::proofs::TextLaws::name_laws), unfolding(crate::specs::Text::name_to_text_answer, crate::specs::Text::text_after, crate::specs::Text::name_text))]
pub fn name_to_text(n: Name, text: &mut [u8]) -> Answer<u32>
    ensures { (result ≡ name_to_text_answer n (length text.old)) × (text.new ≡ text_after n text.old) }
{
    if text.len() < 19 {
        return Err(Refusal::Room);
    }
    let name = name_codes(n);
    let typ = codes_of(n.typ);
    let long = filled_length(&name);
    let short = filled_length(&typ);
    if !is_proper_parts(long, short, n.version) {
        return Err(Refusal::Name);
    }
    let len = put_name(text, &name, long, &typ, short, n.version);
    Ok(len as u32)
}
