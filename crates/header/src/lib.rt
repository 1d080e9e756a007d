// One file header, on its own 512 bytes: its fields, flags, attributes and ident area.

#![tactic(auto)]

pub mod attributes;
pub mod fields;
pub mod flags;
pub mod ident;
