// The value words of what a header says.

ghost use Rattle.header_facts.specs.Values.{header_value};

use crate::types::Header;
use answer::words::Value;

impl Value for Header {
    ghost words = { header_value };

    fn words(self) -> [u64; 10] {
        [
            u64::from(self.sequence),
            u64::from(self.segment),
            u64::from(self.next),
            u64::from(self.next_sequence),
            u64::from(self.pointers),
            u64::from(self.name.name1),
            u64::from(self.name.name2),
            u64::from(self.name.name3),
            u64::from(self.name.typ),
            u64::from(self.name.version),
        ]
    }
}
