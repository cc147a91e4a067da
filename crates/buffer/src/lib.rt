// The translation buffer in the image's bytes: looking up and filling.
#![tactic(auto)]

pub mod fill; // fill.rt: a walk's finding is stored in its set
pub mod look; // look.rt: the first slot that matches an address
