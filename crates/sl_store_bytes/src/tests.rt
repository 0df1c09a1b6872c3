//! Numbers, texts and bytes of tables are written and read back.

use crate::bytes::Bytes;
use crate::lexemes::{lexeme_here, put_bytes};
use crate::tables::Coded;
use crate::words::{NameBytes, TextBytes};
use crate::write::put_number;
use sl_ast::expressions::BinaryOp;
use std::test::Fail;

#[test]
fn parts_are_read_back(rt: HostRuntime) -> Result<(), Fail> {
    let mut out = Vec::new(rt.alloc());
    put_number(&mut out, u64::MAX)?;
    put_bytes(&mut out, b"\"a b\"")?;
    put_bytes(&mut out, b"add")?;
    out.push(BinaryOp::WordOr.code())?;
    let mut bytes = Bytes::new(out.as_slice());
    assert_eq!(rt; bytes.number(0, u64::MAX)?, u64::MAX);
    let text = lexeme_here::<TextBytes>(&mut bytes, 2, 9)?;
    assert_eq!(rt; text, b"\"a b\"".as_slice());
    let name = lexeme_here::<NameBytes>(&mut bytes, 1, 9)?;
    assert_eq!(rt; name, b"add".as_slice());
    assert_eq!(rt; bytes.coded::<BinaryOp>()?, BinaryOp::WordOr);
    assert_eq!(rt; bytes.left(), 0);
    Ok(())
}
