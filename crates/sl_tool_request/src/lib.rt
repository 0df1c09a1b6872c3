//! Requests: what is asked for by a command and what it is given, with the numbers, context fields
//! and hexadecimal images that words and files spell.
#![tactic(auto)]

mod image;
mod laws;
mod numbers;
mod reading;
mod request;

pub use image::decode_hex;
pub use laws::parts_of_words;
pub use reading::asked_by;
pub use request::{Arguments, Assembly, FieldValue, Patch, Request, SpecFile, Target};

/// The usage line, with its line end.
pub const USAGE: &str = "usage: sleigh check SPEC | list SPEC IMAGE | pcode SPEC IMAGE \
    | run SPEC IMAGE | gen NUMBER | gaps SPEC | pack SPEC \
    | asm SPEC TEXT\n";
