//! The bit that splits entries best, by counts of all bits at once. No clause speaks of the counts:
//! the sides of the bit that they tell are counted once more.

use super::Entry;
use super::counts::Counts;
use super::shared::{Shared, open_bits};
use sl_cube::{Cube, Point};

/// How many cubes fix each of these bits to 0, and to 1: of the bytes, and of the context.
fn counted(entries: &[Entry], open: &Point) -> (Counts, Counts) {
    let mut bytes = Counts::new();
    let mut context = Counts::new();
    for entry in entries {
        let cube = &entry.cube;
        let ones = cube.value & open.bytes;
        let zeros = cube.mask & open.bytes ^ ones;
        bytes.add(zeros, ones);
        let ctx_ones = cube.ctx_value & open.context;
        let ctx_zeros = cube.ctx_mask & open.context ^ ctx_ones;
        context.add(ctx_zeros.into(), ctx_ones.into());
    }
    (bytes, context)
}

/// Of the bits that split the entries within the room, the one whose larger side has the fewest
/// entries; no bit where none does.
pub fn likely(shared: &Shared, entries: &[Entry], room: usize) -> Point {
    let open = open_bits(shared);
    if open.bytes == 0 && open.context == 0 {
        return open;
    }
    let (bytes, context) = counted(entries, &open);
    let spare = room.saturating_sub(entries.len());
    let least = entries.len().saturating_sub(spare);
    let byte = bytes.most_even(open.bytes, least);
    let ctx = context.most_even(open.context.into(), least);
    if byte.count < ctx.count {
        Point {
            bytes: 0,
            context: (ctx.bit % (1 << 64)) as u64,
        }
    } else {
        Point {
            bytes: byte.bit,
            context: 0,
        }
    }
}
