//! A sink that gathers small pieces, so that another sink gets few and large ones.
#![tactic(auto)]

mod buffered;

pub use buffered::BufferedSink;
