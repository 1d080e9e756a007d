// Opening a volume.
ghost use Rattle.std.specs.Prelude.{◌≡◌};
ghost use Rattle.open_volume.specs.Answer.{open_volume_answer};
ghost use Rattle.answer_words.specs.Words.{lbn_words};

// The LBN of a volume's home.
#[unsafe(no_mangle)]
pub extern "C" fn ods1_open_volume(image: &[u8], answer: &mut [u64; 12])
    ensures { answer.new ≡ lbn_words (open_volume_answer image.now) }
{
    ods1::volumes::ods1_open_volume(image, answer);
}
