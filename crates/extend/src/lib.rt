// Extend: the tests of a volume that is judged, and the stores where they are passed.

#![tactic(auto)]

ghost use Rattle.std.specs.Prelude.{◌≡◌, length};
ghost use Rattle.answer.specs.Answers.{lbn_answer};
ghost use Rattle.volume.specs.Opening.{Recorded};
ghost use Rattle.chains.specs.Chains.{last_number};
ghost use Rattle.verdict.specs.Verdict.{afterwards, header_marks, block_marks};
ghost use Rattle.sound.specs.Sound.{Safe};
ghost use Rattle.update.specs.Extend.{run_start, extend_answer, with_blocks, extend_image, extend_tests};

use crate::taking::take;
use answer::refusal::Answer;
use answer::types::{FileId, Lbn};
use extend_plan::plan_on;
use verdict::judge_volume;
use volume::{Places, Volume};

pub mod taking;

// Extend on a volume that opens and is safe.
pub fn extend_on(image: &mut [u8], v: Volume, places: &Places, id: FileId, c: u32) -> Answer<Lbn>
    requires { Recorded image.old v places.now × Safe image.old }
    ensures { (result ≡ lbn_answer (extend_tests image.old id c) (run_start image.old c))
        × (image.new ≡ afterwards (extend_tests image.old id c) image.old (with_blocks image.old (last_number image.old id.number) (run_start image.old c) c)) }
{
    let plan = plan_on(image, v, places, id, c)?;
    take(image, v, plan.last, plan.first, c);
    Ok(plan.first)
}

// Extends a file by c blocks. The marks are those of the image before it.
pub fn extend(
    image: &mut [u8],
    id: FileId,
    c: u32,
    area: &mut [u8],
    headers: &mut [u8],
) -> Answer<Lbn>
    ensures { (result ≡ extend_answer image.old id c (length area.old) (length headers.old))
        × (image.new ≡ extend_image image.old id c (length area.old) (length headers.old))
        × (area.new ≡ block_marks image.old area.old headers.old)
        × (headers.new ≡ header_marks image.old area.old headers.old) }
{
    let mut places = [0u32; 256];
    let v = judge_volume(image, &mut places, area, headers)?;
    extend_on(image, v, &places, id, c)
}
