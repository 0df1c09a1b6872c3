//! The stages that a request goes through before anything is shown of it.
//!
//! [`Source`] is the text that the main file of a specification expands to, [`Tokens`] are its
//! tokens, [`Tree`] is the tree that they spell, and [`Compiled`] has the tables of that tree,
//! which are sound. [`Loaded`] has an image beside them: bytes, where they lie in memory, and the
//! context. Each is made by its call `read` and keeps the one before, so that the place of a
//! token can still be told:
//!
//! ```text
//! let source = Source::read(alloc, name, files)?;
//! let tree = Tree::read(alloc, &source)?;
//! let compiled = Compiled::read(alloc, tree)?;
//! let loaded = Loaded::read(alloc, target, compiled, files)?;
//! ```
//!
//! [`begin`] gives the context in which an instruction is assembled, in the place of an image, and
//! [`begin_lines`] that of an edited listing.
//!
//! Where a stage gives nothing, a [`Halt`] says why. Of a specification, an image or a word for the
//! context that is refused it has a [`Refusal`]: the line of a file or the name of a field, and the
//! [`Problem`] there. Its text is what the tool prints of it.
//!
//! `specs/Stages.antt` says what each stage makes of the one before, `specs/Outcomes.antt` what its
//! call promises of that, and `specs/Problems.antt` what is printed of each refusal.
#![tactic(auto)]

mod beginning;
mod compiled;
mod facts;
mod fetching;
mod halt;
mod image;
mod laws;
mod lines;
mod loaded;
mod origin;
mod place;
mod places;
mod problem;
mod refusal;
mod source;
mod tokens;
mod tree;

pub use beginning::{begin, begin_lines};
pub use compiled::Compiled;
pub use facts::Facts;
pub use fetching::fetched;
pub use halt::Halt;
pub use image::has_room;
pub use laws::explains_in_lines;
pub use lines::{push_counted, push_place, push_point};
pub use loaded::Loaded;
pub use origin::{Origin, Stored};
pub use place::{Name, Place};
pub use places::Places;
pub use problem::{Conflict, Problem};
pub use refusal::{Refusal, Subject};
pub use source::Source;
pub use tokens::Tokens;
pub use tree::Tree;
