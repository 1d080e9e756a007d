// The value words of the verdict.

ghost use Rattle.verdict.specs.Values.{counts_value};

use crate::Counts;
use answer::words::Value;

impl Value for Counts {
    ghost words = { counts_value };

    fn words(self) -> [u64; 10] {
        let blocks = u64::from(self.blocks);
        let claimed = u64::from(self.claimed);
        let free = u64::from(self.free);
        let headers = u64::from(self.headers);
        [blocks, claimed, free, headers, 0, 0, 0, 0, 0, 0]
    }
}
