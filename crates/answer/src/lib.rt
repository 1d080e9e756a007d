// What calls on a volume take and answer: the counts that are kept apart, file IDs and names, refusals with their number, place and
// value, and the twelve words of an exported call's answer.

#![tactic(auto)]

pub mod refusal;
pub mod types;
mod values;
pub mod words;
