// Calls that change a volume: create, extend and delete.
ghost use Rattle.std.specs.Prelude.{◌≡◌, length};
ghost use Rattle.verdict.specs.Verdict.{header_marks, block_marks};
ghost use Rattle.update.specs.Create.{create_answer, create_image};
ghost use Rattle.update.specs.Extend.{extend_answer, extend_image};
ghost use Rattle.update.specs.Delete.{delete_answer, delete_image};
ghost use Rattle.answer_words.specs.Words.{lbn_words, id_words, bare_words};
ghost use Rattle.ods1.specs.Arguments.{id_of, of_words};

use answer::types::{FileId, Name};
use answer::words::put;
use create::create;
use delete::delete;
use extend::extend;

// A new file of no blocks, by its name, owner and protection: its ID.
pub fn ods1_create(
    image: &mut [u8],
    name1: u16,
    name2: u16,
    name3: u16,
    typ: u16,
    version: u16,
    owner: u16,
    protection: u16,
    blocks: &mut [u8],
    headers: &mut [u8],
    answer: &mut [u64; 12],
)
    ensures { (answer.new ≡ id_words (create_answer image.old (of_words name1 name2 name3 typ version) (length blocks.old) (length headers.old)))
        × (image.new ≡ create_image image.old (of_words name1 name2 name3 typ version) owner protection (length blocks.old) (length headers.old))
        × (blocks.new ≡ block_marks image.old blocks.old headers.old)
        × (headers.new ≡ header_marks image.old blocks.old headers.old) }
{
    let name = Name {
        name1,
        name2,
        name3,
        typ,
        version,
    };
    let result = create(image, name, owner, protection, blocks, headers);
    put(answer, result);
}

// A file with so many blocks more, in a row: the first of them.
pub fn ods1_extend(
    image: &mut [u8],
    number: u16,
    sequence: u16,
    volume: u16,
    count: u32,
    blocks: &mut [u8],
    headers: &mut [u8],
    answer: &mut [u64; 12],
)
    ensures { (answer.new ≡ lbn_words (extend_answer image.old (id_of number sequence volume) count (length blocks.old) (length headers.old)))
        × (image.new ≡ extend_image image.old (id_of number sequence volume) count (length blocks.old) (length headers.old))
        × (blocks.new ≡ block_marks image.old blocks.old headers.old)
        × (headers.new ≡ header_marks image.old blocks.old headers.old) }
{
    let id = FileId {
        number,
        sequence,
        volume,
    };
    put(answer, extend(image, id, count, blocks, headers));
}

// A file given up: its numbers, its slots and its blocks.
pub fn ods1_delete(
    image: &mut [u8],
    number: u16,
    sequence: u16,
    volume: u16,
    blocks: &mut [u8],
    headers: &mut [u8],
    answer: &mut [u64; 12],
)
    ensures { (answer.new ≡ bare_words (delete_answer image.old (id_of number sequence volume) (length blocks.old) (length headers.old)))
        × (image.new ≡ delete_image image.old (id_of number sequence volume) (length blocks.old) (length headers.old))
        × (blocks.new ≡ block_marks image.old blocks.old headers.old)
        × (headers.new ≡ header_marks image.old blocks.old headers.old) }
{
    let id = FileId {
        number,
        sequence,
        volume,
    };
    put(answer, delete(image, id, blocks, headers));
}
