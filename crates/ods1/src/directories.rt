// Directories: looking a name up, and the next record.
ghost use Rattle.std.specs.Prelude.{◌≡◌};
ghost use Rattle.look_up.specs.LookUp.{look_up_answer, next_record_answer};
ghost use Rattle.answer_words.specs.Words.{id_words};
ghost use Rattle.directory_words.specs.Words.{next_record_words};
ghost use Rattle.ods1.specs.Arguments.{id_of, of_words};

use answer::types::{FileId, Name};
use answer::words::put;
use look_up::{look_up, next_record};

// The ID that a directory has under a name, as it is stored.
pub fn ods1_look_up(
    image: &[u8],
    number: u16,
    sequence: u16,
    volume: u16,
    name1: u16,
    name2: u16,
    name3: u16,
    typ: u16,
    version: u16,
    answer: &mut [u64; 12],
)
    ensures { answer.new ≡ id_words (look_up_answer image.now (id_of number sequence volume) (of_words name1 name2 name3 typ version)) }
{
    let result = look_up(
        image,
        FileId {
            number,
            sequence,
            volume,
        },
        Name {
            name1,
            name2,
            name3,
            typ,
            version,
        },
    );
    put(answer, result);
}

// The next record of a directory that is not empty, from a place on, and the place to go on from.
pub fn ods1_next_record(
    image: &[u8],
    number: u16,
    sequence: u16,
    volume: u16,
    place: u32,
    answer: &mut [u64; 12],
)
    ensures { answer.new ≡ next_record_words (next_record_answer image.now (id_of number sequence volume) place) }
{
    let result = next_record(
        image,
        FileId {
            number,
            sequence,
            volume,
        },
        place,
    );
    put(answer, result);
}
