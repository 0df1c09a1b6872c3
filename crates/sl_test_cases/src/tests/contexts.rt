use sl_decode_contexts::{Commit, ContextMap};
use std::test::Fail;

/// A commit of all bits.
fn commit_of(address: u64, value: u64, flows: bool) -> Commit {
    Commit {
        address,
        mask: u64::MAX,
        value,
        flows,
    }
}

#[test]
fn contexts_by_commits(rt: HostRuntime) -> Result<(), Fail> {
    let mut contexts = ContextMap::new(rt.alloc(), 7);
    contexts.commit(&commit_of(8, 1, true))?;
    contexts.commit(&commit_of(4, 2, true))?;
    contexts.commit(&commit_of(6, 3, false))?;
    assert_eq!(rt; contexts.at(3), 7, "before the first commit");
    assert_eq!(rt; contexts.at(5), 2, "a commit flows");
    assert_eq!(rt; contexts.at(6), 3, "at its own address alone");
    assert_eq!(rt; contexts.at(7), 2, "past a commit that doesn't flow");
    assert_eq!(rt; contexts.at(9), 1, "past the last commit");
    Ok(())
}
