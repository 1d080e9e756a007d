// The value words of what DONE has, for the types that several calls answer with.

ghost use Rattle.answer.specs.Values.{lbn_value, id_value, run_value, name_value, count_value, bare_value};

use crate::types::{FileId, Lbn, Name, Run};
use crate::words::Value;

impl Value for Lbn {
    ghost words = { lbn_value };

    fn words(self) -> [u64; 10] {
        [u64::from(self.0), 0, 0, 0, 0, 0, 0, 0, 0, 0]
    }
}

impl Value for FileId {
    ghost words = { id_value };

    fn words(self) -> [u64; 10] {
        let number = u64::from(self.number);
        let sequence = u64::from(self.sequence);
        let volume = u64::from(self.volume);
        [number, sequence, volume, 0, 0, 0, 0, 0, 0, 0]
    }
}

// The first LBN, and how many blocks there are.
impl Value for Run {
    ghost words = { run_value };

    fn words(self) -> [u64; 10] {
        let lbn = u64::from(self.lbn.0);
        let count = u64::from(self.count);
        [lbn, count, 0, 0, 0, 0, 0, 0, 0, 0]
    }
}

impl Value for Name {
    ghost words = { name_value };

    fn words(self) -> [u64; 10] {
        let name1 = u64::from(self.name1);
        let name2 = u64::from(self.name2);
        let name3 = u64::from(self.name3);
        let typ = u64::from(self.typ);
        let version = u64::from(self.version);
        [name1, name2, name3, typ, version, 0, 0, 0, 0, 0]
    }
}

// A count.
impl Value for u32 {
    ghost words = { count_value };

    fn words(self) -> [u64; 10] {
        [u64::from(self), 0, 0, 0, 0, 0, 0, 0, 0, 0]
    }
}

// No value but 0.
impl Value for () {
    ghost words = { bare_value };

    fn words(self) -> [u64; 10] {
        [0; 10]
    }
}
