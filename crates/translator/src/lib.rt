// The calls on the host's bytes.
#![tactic(auto)]

pub mod calls; // calls.rt: the starts and the invalidating calls
pub mod translation; // translation.rt: translate
