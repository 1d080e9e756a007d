// The image as bytes: words, blocks, sums and bits. What stores leave is defined here too; their code is in `stores`.

#![tactic(auto)]

pub mod bits;
pub mod blocks;
pub mod sums;
pub mod words;
