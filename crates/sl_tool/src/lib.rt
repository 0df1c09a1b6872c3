//! The tool as one call: [`run_tool`] takes the words of a command line, reads the files that they
//! name, writes one text and gives a [`Status`].
//!
//! The words are read by `sl_tool_words`. `check SPEC` prints why a specification is refused, or
//! how many tables and constructors it has; `list SPEC IMAGE` prints a listing, `pcode SPEC IMAGE`
//! the listing with the operations of each instruction, and `run SPEC IMAGE` runs instructions and
//! prints registers, changed memory and the fault; the image may be hexadecimal text, and begin at
//! a base. `gaps SPEC` prints what a specification leaves unmatched. `gen NUMBER` checks, lists and
//! runs a specification and an image of its own. `asm SPEC TEXT` prints the line of bytes that a
//! listing shows as the text, and with `--lines` writes the image of an edited listing. A
//! specification's main file is expanded, the text is split into tokens, the tokens are parsed, the
//! rules are judged, sizes inferred, and tables settled, or the first reason is told why it is
//! refused.
//!
//! `sl_tool_stages` has the stages: source, tree, sound tables, and the image beside them.
//! `answer.rt` has the row of them for each request, and then what follows: `check.rt` counts;
//! `show.rt` shows an image; `report.rt` reports gaps; `assemble.rt` finds the bytes of a text, and
//! `patch.rt` those of an edited listing; `figures.rt` has what `gen` tells.
//! `specs/Answers.antt` says what is due of a request.
#![tactic(auto)]

mod answer;
mod assemble;
mod check;
mod figures;
mod generated;
mod laws;
mod pack;
mod patch;
mod report;
mod request;
mod show;
mod status;
mod tool;
mod writing;

pub use laws::{
    accepted_are_answered, assembled_is_listed, complete, one_answer, packed_is_alike,
    patched_is_listed, printed_sure_is_matched, some_answer,
};
pub use status::Status;
pub use tool::run_tool;
