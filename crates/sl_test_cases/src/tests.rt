//! Worked cases, in tables, crate by crate.

mod blocks;
mod choose;
mod constraints;
mod contexts;
mod cube;
mod cube_sets;
mod cubes;
mod generator;
mod heights;
mod levels;
mod lex;
mod outside;
mod pcode;
mod preproc;
mod rules;
mod shapes;
mod sizes;
mod word;
