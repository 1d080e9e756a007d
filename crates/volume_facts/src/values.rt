// The value words of what a volume says of itself.

ghost use Rattle.volume_facts.specs.Values.{geometry_value, label_value};

use crate::types::{Geometry, Label};
use answer::words::Value;

impl Value for Geometry {
    ghost words = { geometry_value };

    fn words(self) -> [u64; 10] {
        [
            u64::from(self.blocks),
            u64::from(self.home.0),
            u64::from(self.ibsz),
            u64::from(self.iblb.0),
            u64::from(self.fmax),
            u64::from(self.slots),
            u64::from(self.map.0),
            u64::from(self.map_blocks),
            u64::from(self.vlev),
            u64::from(self.index_headers),
        ]
    }
}

impl Value for Label {
    ghost words = { label_value };

    fn words(self) -> [u64; 10] {
        [
            u64::from(self.name1),
            u64::from(self.name2),
            u64::from(self.name3),
            u64::from(self.name4),
            u64::from(self.name5),
            u64::from(self.name6),
            u64::from(self.owner),
            u64::from(self.protection),
            u64::from(self.characteristics),
            u64::from(self.default_protection),
        ]
    }
}
