// Extents of a file, and free blocks of a volume.
ghost use Rattle.std.specs.Prelude.{◌≡◌};
ghost use Rattle.extents.specs.Extents.{extent_answer};
ghost use Rattle.free_run.specs.Free.{free_run_answer};
ghost use Rattle.answer_words.specs.Words.{run_words};
ghost use Rattle.ods1.specs.Arguments.{id_of};

// The extent of a file from a VBN on: its LBN, and how many blocks lie in a row.
#[unsafe(no_mangle)]
pub extern "C" fn ods1_extent(
    image: &[u8],
    number: u16,
    sequence: u16,
    volume: u16,
    vbn: u32,
    answer: &mut [u64; 12],
)
    ensures { answer.new ≡ run_words (extent_answer image.now (id_of number sequence volume) vbn) }
{
    ods1::space::ods1_extent(image, number, sequence, volume, vbn, answer);
}

// The first run of free blocks from an LBN on: its first LBN, and how many blocks it has.
#[unsafe(no_mangle)]
pub extern "C" fn ods1_free_run(image: &[u8], from: u32, answer: &mut [u64; 12])
    ensures { answer.new ≡ run_words (free_run_answer image.now from) }
{
    ods1::space::ods1_free_run(image, from, answer);
}
