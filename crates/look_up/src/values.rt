// The value words of a step in a directory.

ghost use Rattle.look_up.specs.Values.{step_value};

use crate::Step;
use answer::words::Value;

// The words of the record, and the place to go on from.
impl Value for Step {
    ghost words = { step_value };

    fn words(self) -> [u64; 10] {
        [
            u64::from(self.entry.id.number),
            u64::from(self.entry.id.sequence),
            u64::from(self.entry.id.volume),
            u64::from(self.entry.name.name1),
            u64::from(self.entry.name.name2),
            u64::from(self.entry.name.name3),
            u64::from(self.entry.name.typ),
            u64::from(self.entry.name.version),
            u64::from(self.next),
            0,
        ]
    }
}
