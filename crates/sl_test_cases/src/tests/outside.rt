use sl_outside::{FetchError, Files, MemFiles, MemSink, Sink, SinkError};
use sl_outside_buffered::BufferedSink;
use std::test::Fail;

#[test]
fn memory_files_give_the_latest_bytes(rt: HostRuntime) -> Result<(), Fail> {
    let mut files = MemFiles::new(rt.alloc());
    files.add("a", b"first")?;
    files.add("a", b"second")?;
    files.fail_on(3)?;
    let mut into = Vec::from_slice(rt.alloc(), b"as before")?;
    assert!(rt; files.fetch("b", &mut into) == Err(FetchError::Absent));
    assert_eq!(rt; into.as_slice(), b"as before".as_slice());
    assert!(rt; files.fetch("a", &mut into) == Ok(()));
    assert_eq!(rt; into.as_slice(), b"second".as_slice());
    assert!(rt; files.fetch("a", &mut into) == Err(FetchError::Failed));
    assert!(rt; files.fetch("a", &mut into) == Ok(()));
    Ok(())
}

#[test]
fn a_memory_sink_takes_what_fits(rt: HostRuntime) -> Result<(), Fail> {
    let mut sink = MemSink::new(rt.alloc());
    assert!(rt; sink.put(b"one") == Ok(3));
    sink.fail_on(2)?;
    assert!(rt; sink.put(b"two") == Err(SinkError::Failed));
    sink.room(4);
    assert!(rt; sink.put(b"three") == Ok(4));
    assert!(rt; sink.put(b"four") == Err(SinkError::Failed));
    assert_eq!(rt; sink.bytes(), b"onethre".as_slice());
    Ok(())
}

#[test]
fn a_buffered_sink_hands_on_what_it_has_gathered(rt: HostRuntime) -> Result<(), Fail> {
    let mut sink = BufferedSink::new(rt.alloc(), MemSink::new(rt.alloc()))?;
    assert!(rt; sink.put(b"one") == Ok(3));
    assert!(rt; sink.put(b", two") == Ok(5));
    assert_eq!(rt; sink.sink.bytes(), b"".as_slice());
    assert!(rt; sink.flush() == Ok(()));
    assert_eq!(rt; sink.sink.bytes(), b"one, two".as_slice());
    sink.sink.room(1);
    assert!(rt; sink.put(b"ab") == Ok(2));
    assert!(rt; sink.flush() == Err(SinkError::Failed));
    assert_eq!(rt; sink.sink.bytes(), b"one, twoa".as_slice());
    sink.sink.room(9);
    assert!(rt; sink.flush() == Ok(()));
    assert_eq!(rt; sink.sink.bytes(), b"one, twoab".as_slice());
    Ok(())
}
