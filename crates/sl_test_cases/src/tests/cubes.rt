//! Cubes, points and sets of the first byte.

use sl_cube::{Cube, Point};
use sl_cube_sets::CubeSet;
use std::alloc::{AllocError, Global};

/// The points whose first byte has, under this mask, the bits of this value.
pub fn cube(mask: u8, value: u8) -> Cube {
    let mask = u128::from(mask) << 120;
    Cube {
        mask,
        value: u128::from(value) << 120 & mask,
        ctx_mask: 0,
        ctx_value: 0,
    }
}

/// The point that begins with this byte, and zeros.
pub fn point(byte: u8) -> Point {
    Point {
        bytes: u128::from(byte) << 120,
        context: 0,
    }
}

/// The cubes of these masks and values.
pub fn cubes(alloc: Global, bytes: &[(u8, u8)]) -> Result<Vec<Cube>, AllocError> {
    let mut cubes = Vec::new(alloc);
    for (mask, value) in bytes {
        cubes.push(cube(*mask, *value))?;
    }
    Ok(cubes)
}

/// The set of the points of these masks and values.
pub fn set(alloc: Global, bytes: &[(u8, u8)]) -> Result<CubeSet, AllocError> {
    let cubes = cubes(alloc, bytes)?;
    Ok(CubeSet { cubes })
}
