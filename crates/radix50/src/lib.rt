// Radix-50: the characters, and words of three characters.

#![tactic(auto)]

mod table;
mod words;

pub use table::{char_of, code_of, is_name_char, is_name_code};
pub use words::{codes_of, word_to_characters};
