// What a volume, a header and a file say of themselves.
ghost use Rattle.std.specs.Prelude.{◌≡◌};
ghost use Rattle.volume_facts.specs.Volumes.{geometry_answer, label_answer};
ghost use Rattle.header_facts.specs.Headers.{header_answer, pointer_answer};
ghost use Rattle.file_facts.specs.Files.{attributes_answer};
ghost use Rattle.answer_words.specs.Words.{run_words};
ghost use Rattle.volume_words.specs.Words.{geometry_words, label_words};
ghost use Rattle.header_words.specs.Words.{header_words};
ghost use Rattle.file_words.specs.Words.{attributes_words};
ghost use Rattle.ods1.specs.Arguments.{id_of};

use answer::types::{FileId, FileNumber};
use answer::words::put;
use file_facts::attributes;
use header_facts::{header, pointer};
use volume_facts::{geometry, label};

// Where the parts of a volume lie.
pub fn ods1_geometry(image: &[u8], answer: &mut [u64; 12])
    ensures { answer.new ≡ geometry_words (geometry_answer image.now) }
{
    put(answer, geometry(image));
}

// The label of a volume: six words of its name, owner, protection, characteristics, default file protection.
pub fn ods1_label(image: &[u8], answer: &mut [u64; 12])
    ensures { answer.new ≡ label_words (label_answer image.now) }
{
    put(answer, label(image));
}

// What the header of a file number in use says.
pub fn ods1_header(image: &[u8], number: u16, answer: &mut [u64; 12])
    ensures { answer.new ≡ header_words (header_answer image.now number) }
{
    put(answer, header(image, FileNumber(u32::from(number))));
}

// A retrieval pointer of the header of a file number in use: its first LBN, and how many blocks it covers.
pub fn ods1_pointer(image: &[u8], number: u16, place: u32, answer: &mut [u64; 12])
    ensures { answer.new ≡ run_words (pointer_answer image.now number place) }
{
    put(answer, pointer(image, FileNumber(u32::from(number)), place));
}

// What an opened file says of itself: blocks, end of file, owner, protection, flags, attributes.
pub fn ods1_attributes(
    image: &[u8],
    number: u16,
    sequence: u16,
    volume: u16,
    answer: &mut [u64; 12],
)
    ensures { answer.new ≡ attributes_words (attributes_answer image.now (id_of number sequence volume)) }
{
    let result = attributes(
        image,
        FileId {
            number,
            sequence,
            volume,
        },
    );
    put(answer, result);
}
