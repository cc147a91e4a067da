// What looking up, filling and dropping share: the page sizes, and whether a set holds anything.
#![tactic(auto)]

pub mod size; // size.rt: the three page sizes, a type for each
pub mod tags; // tags.rt: whether one of a set's four ways is held
