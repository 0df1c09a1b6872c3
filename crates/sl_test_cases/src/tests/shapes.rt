//! Shapes of a few patterns, with ample memory.

use sl_shape_tokens::{Kind, ListBytes, Lists, extended};
use std::test::Fail;

#[test]
fn shapes_have_tokens_and_bytes(rt: HostRuntime) -> Result<(), Fail> {
    let alloc = rt.alloc();
    let mut lists = Lists::new(alloc);
    let one = lists.of_token(0)?;
    let other = lists.of_token(1)?;
    let two = lists.followed(one, other)?;
    let again = lists.followed(one, other)?;
    let table = lists.of_table(alloc, [two, again].as_slice())?;
    let varying = lists.of_table(alloc, [two, one].as_slice())?;
    let mut bytes = ListBytes::new(alloc, vec![in alloc; 1u32, 4]?);
    bytes.grow(&lists)?;
    assert!(rt; table.kind == Kind::Fixed);
    assert_eq!(rt; bytes.bytes(table), 5);
    assert!(rt; varying.kind == Kind::Varying);
    assert_eq!(rt; bytes.bytes(varying), 1);
    assert!(rt; lists.both(alloc, two, one)?.is_none());
    assert!(rt; lists.both(alloc, two, extended(one))?.is_some());
    assert!(rt; lists.either(alloc, two, again)?.is_some());
    assert!(rt; lists.either(alloc, two, one)?.is_none());
    Ok(())
}
