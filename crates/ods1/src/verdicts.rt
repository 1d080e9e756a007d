// The verdict on a volume.
ghost use Rattle.std.specs.Prelude.{◌≡◌};
ghost use Rattle.verdict.specs.Verdict.{header_marks, block_marks, judge_answer};
ghost use Rattle.verdict_words.specs.Words.{judge_words};

use answer::words::put;
use verdict::judge;

// Whether a volume opens and is sound: the number of its blocks, and how many blocks are covered, bits free and file numbers in use.
pub fn ods1_judge(image: &[u8], blocks: &mut [u8], headers: &mut [u8], answer: &mut [u64; 12])
    ensures { (answer.new ≡ judge_words (judge_answer image.now blocks.old headers.old))
        × (blocks.new ≡ block_marks image.now blocks.old headers.old)
        × (headers.new ≡ header_marks image.now blocks.old headers.old) }
{
    put(answer, judge(image, blocks, headers));
}
