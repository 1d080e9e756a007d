// The name of a text.

#![tactic(auto)]

ghost use Rattle.std.specs.Prelude.{◌≡◌, cond, ◌≤◌, ◌<◌, length, Some, None};
ghost use Rattle.std.specs.List.{prefix_len};
ghost use Rattle.radix50.specs.Table.{is_name_char};
ghost use Rattle.parse.specs.Parse.{Part, code_at, part_word, value_to, digits_to, with_version, with_type, text_to_name_answer};

use answer::refusal::{Answer, Refusal};
use answer::types::Name;
use radix50::{code_of, is_name_char};

// How many capitals and digits a text begins with.
fn span(t: &[u8]) -> usize
    ensures { result ≡ prefix_len is_name_char t.now }
{
    t.iter().take_while(|x| is_name_char(**x)).count()
}

// The code of character j of a part, or that of a blank past its end.
#[tactic(auto, using(crate::proofs::ParseLaws::code_in, crate::proofs::ParseLaws::code_past))]
fn code_at(p: &[u8], j: usize) -> u8
    ensures { result ≡ code_at p.now j }
{
    if j < p.len() { code_of(p[j]) } else { 0 }
}

// Word i of a part.
#[tactic(auto, using(crate::proofs::ParseLaws::code_small), unfolding(crate::specs::Parse::part_word, radix50::specs::Words::word_of))]
fn part_word(p: &[u8], i: usize) -> u16
    requires { Part p.now × (i < 3) }
    ensures { result ≡ part_word p.now i }
{
    let a = u16::from(code_at(p, 3 * i));
    let b = u16::from(code_at(p, 3 * i + 1));
    let c = u16::from(code_at(p, 3 * i + 2));
    (a * 40 + b) * 40 + c
}

// The number that digits write; none where a character is no digit.
fn number(d: &[u8]) -> Option<u32>
    requires { length d.now ≤ 5 }
    ensures { result ≡ cond (digits_to d.now (length d.now)) (Some (value_to d.now (length d.now))) None }
{
    let mut v: u32 = 0;
    for &x in d {
        if !x.is_ascii_digit() {
            return None;
        }
        v = 10 * v + u32::from(x - b'0');
    }
    Some(v)
}

// The name of a name part, a type part and what follows the semicolon.
#[tactic(auto, unfolding(crate::specs::Parse::with_version, crate::specs::Parse::is_version, crate::specs::Parse::name_of))]
fn with_version(p: &[u8], y: &[u8], d: &[u8]) -> Answer<Name>
    requires { Part p.now × Part y.now }
    ensures { result ≡ with_version p.now y.now d.now }
{
    if d.is_empty() || 5 < d.len() || d[0] == b'0' {
        return Err(Refusal::Name);
    }
    let Some(v) = number(d) else {
        return Err(Refusal::Name);
    };
    if 32767 < v {
        return Err(Refusal::Name);
    }
    Ok(Name {
        name1: part_word(p, 0),
        name2: part_word(p, 1),
        name3: part_word(p, 2),
        typ: part_word(y, 0),
        version: v as u16,
    })
}

// The name of a name part and what follows the dot.
#[tactic(auto, using(crate::proofs::ParseLaws::prefix_len_span, crate::proofs::ParseLaws::span_most, crate::proofs::ParseLaws::span_part), unfolding(crate::specs::Parse::with_type))]
fn with_type(p: &[u8], s: &[u8]) -> Answer<Name>
    requires { Part p.now }
    ensures { result ≡ with_type p.now s.now }
{
    let end = span(s);
    if 3 < end {
        return Err(Refusal::Name);
    }
    let (y, [b';', d @ ..]) = s.split_at(end) else {
        return Err(Refusal::Name);
    };
    with_version(p, y, d)
}

// The words of a text `NAME.TYP;V`.
#[tactic(auto, using(std::proofs::lemmas::Grind::common_steps, crate::proofs::ParseLaws::prefix_len_span, crate::proofs::ParseLaws::span_most, crate::proofs::ParseLaws::span_part), unfolding(crate::specs::Parse::text_to_name_answer))]
pub fn text_to_name(text: &[u8]) -> Answer<Name>
    ensures { result ≡ text_to_name_answer text.now }
{
    let end = span(text);
    if end < 1 || 9 < end {
        return Err(Refusal::Name);
    }
    let (p, [b'.', s @ ..]) = text.split_at(end) else {
        return Err(Refusal::Name);
    };
    with_type(p, s)
}
