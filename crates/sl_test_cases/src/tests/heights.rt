//! A graph with three heights, with ample memory.

use sl_base_graphs::{heights_of, sorted_by_height};
use std::test::Fail;

#[test]
fn nodes_are_sorted_by_their_heights(rt: HostRuntime) -> Result<(), Fail> {
    let alloc = rt.alloc();
    // 2 and 3 have no successors; 4 names 9, which is no node
    let graph = vec![in alloc;
        vec![in alloc; 1usize, 3]?,
        vec![in alloc; 2usize]?,
        Vec::new(alloc),
        Vec::new(alloc),
        vec![in alloc; 9usize]?,
    ]?;
    let heights = heights_of(alloc, graph.as_slice())?;
    let sorted = sorted_by_height(alloc, heights.as_slice(), [4usize, 0, 3, 1, 2].as_slice())?;
    let wanted = [3usize, 2, 4, 1, 0];
    assert_eq!(rt; sorted.len(), 5);
    for index in 0..wanted.len() {
        assert_eq!(rt; sorted[index], wanted[index]);
    }
    Ok(())
}
