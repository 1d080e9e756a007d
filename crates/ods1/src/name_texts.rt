// Names as text, and text as names.
ghost use Rattle.std.specs.Prelude.{◌≡◌, length};
ghost use Rattle.text.specs.Text.{name_to_text_answer, text_after};
ghost use Rattle.parse.specs.Parse.{text_to_name_answer};
ghost use Rattle.answer_words.specs.Words.{count_words};
ghost use Rattle.text_words.specs.Words.{text_to_name_words};
ghost use Rattle.ods1.specs.Arguments.{of_words};

use answer::types::Name;
use answer::words::put;
use parse::text_to_name;
use text::name_to_text;

// The five words of a text `NAME.TYP;V`.
pub fn ods1_text_to_name(text: &[u8], answer: &mut [u64; 12])
    ensures { answer.new ≡ text_to_name_words (text_to_name_answer text.now) }
{
    put(answer, text_to_name(text));
}

// The text of five words, into a buffer of at least 19 bytes, and its length.
pub fn ods1_name_to_text(
    name1: u16,
    name2: u16,
    name3: u16,
    typ: u16,
    version: u16,
    text: &mut [u8],
    answer: &mut [u64; 12],
)
    ensures text_after { text.new ≡ text_after (of_words name1 name2 name3 typ version) text.old }
    ensures answer_after { answer.new ≡ count_words (name_to_text_answer (of_words name1 name2 name3 typ version) (length text.old)) }
{
    let result = name_to_text(
        Name {
            name1,
            name2,
            name3,
            typ,
            version,
        },
        text,
    );
    put(answer, result);
}
