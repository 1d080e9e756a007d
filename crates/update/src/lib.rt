// Create, extend and delete: what they answer and what they leave, as definitions; the calls themselves stand in crates of their own.

#![tactic(auto)]
