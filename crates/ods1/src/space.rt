// Extents of a file, and free blocks of a volume.
ghost use Rattle.std.specs.Prelude.{◌≡◌};
ghost use Rattle.extents.specs.Extents.{extent_answer};
ghost use Rattle.free_run.specs.Free.{free_run_answer};
ghost use Rattle.answer_words.specs.Words.{run_words};
ghost use Rattle.ods1.specs.Arguments.{id_of};

use answer::types::{FileId, Lbn, Vbn};
use answer::words::put;
use extents::extent;
use free_run::free_run;

// The extent of a file from a VBN on: its LBN, and how many blocks lie in a row.
pub fn ods1_extent(
    image: &[u8],
    number: u16,
    sequence: u16,
    volume: u16,
    vbn: u32,
    answer: &mut [u64; 12],
)
    ensures { answer.new ≡ run_words (extent_answer image.now (id_of number sequence volume) vbn) }
{
    let result = extent(
        image,
        FileId {
            number,
            sequence,
            volume,
        },
        Vbn(vbn),
    );
    put(answer, result);
}

// The first run of free blocks from an LBN on: its first LBN, and how many blocks it has.
pub fn ods1_free_run(image: &[u8], from: u32, answer: &mut [u64; 12])
    ensures { answer.new ≡ run_words (free_run_answer image.now from) }
{
    put(answer, free_run(image, Lbn(from)));
}
