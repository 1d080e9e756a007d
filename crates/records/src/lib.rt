// The records of a directory, in blocks that lie one behind the other.

#![tactic(auto)]

ghost use Rattle.std.specs.Prelude.{◌≡◌, ◌+◌, ◌*◌, ◌≤◌, length};
ghost use Rattle.records.specs.Records.{record_in, entry_of};

use answer::types::{FileId, Name};
use image::words::word_at;

// What a record has: an ID and a name.
#[derive(Clone, Copy)]
pub struct Entry {
    pub id: FileId,
    pub name: Name,
}

// What is searched for among the records that are not empty.
#[derive(Clone, Copy)]
pub enum Wanted {
    // Any of them.
    Any,
    // One with this name.
    Named(Name),
}

// The entry in record i.
#[tactic(auto, using(crate::proofs::RecordLaws::entry_in))]
pub fn entry_at(b: &[u8], i: u32) -> Entry
    requires { 16 * i + 16 ≤ length b.now }
    ensures { result ≡ entry_of (record_in b.now i) }
{
    let at = 16 * (i as usize);
    Entry {
        id: FileId {
            number: word_at(b, at),
            sequence: word_at(b, at + 2),
            volume: word_at(b, at + 4),
        },
        name: Name {
            name1: word_at(b, at + 6),
            name2: word_at(b, at + 8),
            name3: word_at(b, at + 10),
            typ: word_at(b, at + 12),
            version: word_at(b, at + 14),
        },
    }
}
