// The value words of what a file says of itself.

ghost use Rattle.file_facts.specs.Values.{attributes_value};

use crate::types::Attributes;
use answer::words::Value;

impl Value for Attributes {
    ghost words = { attributes_value };

    fn words(self) -> [u64; 10] {
        [
            u64::from(self.blocks),
            self.end,
            u64::from(self.owner),
            u64::from(self.protection),
            u64::from(self.flags),
            u64::from(self.record_type),
            u64::from(self.record_size),
            u64::from(self.highest.0),
            u64::from(self.end_block.0),
            u64::from(self.first_free),
        ]
    }
}
