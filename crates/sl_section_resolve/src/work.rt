//! A section that is being read, with the calls of macros in which reading stands.

use sl_ast::statements::Stmt;
use sl_section_flat::Step;
use sl_section_terms::Names;

/// A section, or a call of a macro, of which some statements are left: the names that it knows, how
/// many macros it knows, its statements and the index of the next one.
#[derive(Drop)]
pub struct Frame<'s, 'a> {
    pub names: Names<'a>,
    pub limit: usize,
    pub body: &'s [Stmt<'a>],
    pub at: usize,
}

/// The frames, of which the last one is read first, the next size variable, the next number of a
/// call, and the steps so far.
#[derive(Drop)]
pub struct Work<'s, 'a> {
    pub frames: Vec<Frame<'s, 'a>>,
    pub next: u32,
    pub calls: u32,
    pub steps: Vec<Step<'a>>,
}
