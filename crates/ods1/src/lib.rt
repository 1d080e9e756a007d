// The exported calls: thin functions over the public calls of the crates below. Each writes its answer as twelve words: number,
// place and ten value words. C calls them through ods1_c, which promises the same.

#![tactic(auto)]

pub mod changes;
pub mod directories;
pub mod fields;
pub mod file_blocks;
pub mod name_texts;
pub mod space;
pub mod verdicts;
pub mod volumes;
