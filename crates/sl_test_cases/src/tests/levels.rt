//! A graph, with ample memory.

use sl_base_graphs::order_of;
use std::test::Fail;

#[test]
fn cycles_are_told(rt: HostRuntime) -> Result<(), Fail> {
    let alloc = rt.alloc();
    // 0 and 4 reach a cycle and aren't in one; 3 stands between two
    let graph = vec![in alloc;
        vec![in alloc; 1usize]?,
        vec![in alloc; 2usize, 3]?,
        vec![in alloc; 1usize]?,
        vec![in alloc; 5usize]?,
        vec![in alloc; 5usize, 9]?,
        vec![in alloc; 5usize]?,
    ]?;
    let levels = order_of(alloc, graph.as_slice())?;
    let wanted = [false, true, true, false, false, true];
    for node in 0..wanted.len() {
        assert_eq!(rt; levels.reaching[node], wanted[node]);
    }
    Ok(())
}
