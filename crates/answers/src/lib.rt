// What the programs answer to the bytes of files: the text that they print, and how the run ends.
#![tactic(auto)]

pub mod printed;
pub mod seriating;
pub mod verifying;
