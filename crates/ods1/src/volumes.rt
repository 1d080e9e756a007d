// Opening a volume.
ghost use Rattle.std.specs.Prelude.{◌≡◌};
ghost use Rattle.open_volume.specs.Answer.{open_volume_answer};
ghost use Rattle.answer_words.specs.Words.{lbn_words};

use answer::words::put;
use open_volume::open_volume;

// The LBN of a volume's home.
pub fn ods1_open_volume(image: &[u8], answer: &mut [u64; 12])
    ensures { answer.new ≡ lbn_words (open_volume_answer image.now) }
{
    put(answer, open_volume(image));
}
