// What C and others call: each export passes its arguments to the call of the same name in ods1, and promises the same. The
// archive that they link is target/staticlib/libods1.a.
#![tactic(auto)]

pub mod changes;
pub mod directories;
pub mod fields;
pub mod file_blocks;
pub mod name_texts;
pub mod space;
pub mod verdicts;
pub mod volumes;
