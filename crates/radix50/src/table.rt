// The Radix-50 character table and its inverse.
ghost use Rattle.std.specs.Prelude.{◌≡◌, ◌<◌};
ghost use Rattle.radix50.specs.Table.{char_of, code_of, is_digit, is_name_char};

// The character of each code; code 29 has none, and a 0 stands there.
const CHARACTERS: [u8; 40] = *b" ABCDEFGHIJKLMNOPQRSTUVWXYZ$.\x000123456789";

// The character of a code.
#[tactic(auto, using(crate::proofs::TableLaws::characters_at), unfolding(crate::proofs::TableLaws::characters))]
pub fn char_of(c: u8) -> u8
    requires { c < 40 }
    ensures { result ≡ char_of c }
{
    CHARACTERS[usize::from(c)]
}

// The code of a character, or 40.
#[tactic(auto, using(crate::proofs::TableLaws::code_by_range), unfolding(crate::proofs::TableLaws::by_range))]
pub fn code_of(x: u8) -> u8
    ensures { result ≡ code_of x }
{
    // Capitals and digits by tests of their own: a match of all five asks for the three others first, and is slower.
    if x.is_ascii_uppercase() {
        return x - 64;
    }
    if x.is_ascii_digit() {
        return x - 18;
    }
    match x {
        b' ' => 0,
        b'$' => 27,
        b'.' => 28,
        _ => 40,
    }
}

// Whether a character is a digit.
#[tactic(auto, unfolding(crate::specs::Table::is_digit))]
pub fn is_digit(x: u8) -> bool
    ensures { result ≡ is_digit x }
{
    x.is_ascii_digit()
}

// Whether a character is a capital or a digit.
#[tactic(auto, unfolding(crate::specs::Table::is_name_char))]
pub fn is_name_char(x: u8) -> bool
    ensures { result ≡ is_name_char x }
{
    x.is_ascii_uppercase() || is_digit(x)
}

// Whether a code is that of a capital or a digit.
#[tactic(auto, using(crate::proofs::TableLaws::name_by_range), unfolding(crate::proofs::TableLaws::name_range))]
pub fn is_name_code(c: u8) -> bool
    ensures { result ≡ is_name_char (char_of c) }
{
    matches!(c, 1..=26 | 30..=39)
}
