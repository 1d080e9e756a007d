// Files by ID: how many blocks one has, and where its blocks lie.
ghost use Rattle.std.specs.Prelude.{◌≡◌};
ghost use Rattle.open_file.specs.Opening.{open_file_answer};
ghost use Rattle.mapping.specs.Mapping.{map_answer};
ghost use Rattle.answer_words.specs.Words.{lbn_words, count_words};
ghost use Rattle.file_words.specs.Words.{block_words};
ghost use Rattle.ods1.specs.Arguments.{id_of};

use answer::types::{FileId, Vbn};
use answer::words::put;
use file_words::Block;
use mapping::map;
use open_file::open_file;

// How many blocks a file has.
pub fn ods1_open_file(image: &[u8], number: u16, sequence: u16, volume: u16, answer: &mut [u64; 12])
    ensures { answer.new ≡ count_words (open_file_answer image.now (id_of number sequence volume)) }
{
    let result = open_file(
        image,
        FileId {
            number,
            sequence,
            volume,
        },
    );
    put(answer, result);
}

// The LBN of a file's VBN.
pub fn ods1_map(
    image: &[u8],
    number: u16,
    sequence: u16,
    volume: u16,
    vbn: u32,
    answer: &mut [u64; 12],
)
    ensures { answer.new ≡ lbn_words (map_answer image.now (id_of number sequence volume) vbn) }
{
    let result = map(
        image,
        FileId {
            number,
            sequence,
            volume,
        },
        Vbn(vbn),
    );
    put(answer, result);
}

// Where the block of a file's VBN begins in the image, and how many bytes it has.
pub fn ods1_block(
    image: &[u8],
    number: u16,
    sequence: u16,
    volume: u16,
    vbn: u32,
    answer: &mut [u64; 12],
)
    ensures { answer.new ≡ block_words (map_answer image.now (id_of number sequence volume) vbn) }
{
    let result = map(
        image,
        FileId {
            number,
            sequence,
            volume,
        },
        Vbn(vbn),
    );
    put(answer, result.map(Block));
}
