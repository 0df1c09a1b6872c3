//! Constraints on a field of two bits, the lowest of a token of one byte.

use sl_shape_blocks::Relation;
use sl_shape_constraints::Constraint;
use sl_spec::{Field, Named, Token};
use sl_word::Endian;
use std::test::Fail;

/// A relation, a number and the place of the token; the masks and values of the first bytes; how many cubes are needed.
static ROWS: &[(Relation, i64, u32, &[(u16, u16)], usize)] = &[
    (Relation::Equal, 2, 0, &[(0x0300, 0x0200)], 1),
    (Relation::Equal, 2, 1, &[(0x0003, 0x0002)], 1),
    (
        Relation::NotEqual,
        0,
        0,
        &[(0x0300, 0x0100), (0x0200, 0x0200)],
        2,
    ),
    (Relation::Less, 2, 0, &[(0x0200, 0)], 1),
    (Relation::Equal, 99, 0, &[], 1),
    (Relation::GreaterEqual, 0, 0, &[(0, 0)], 1),
];

#[test]
fn rows(rt: HostRuntime) -> Result<(), Fail> {
    let name = b"byte".as_slice();
    let token = Token {
        name,
        bits: 8,
        endian: Endian::Big,
    };
    let mut tokens = Named::new(rt.alloc());
    tokens.add(name, token)?;
    let field = Field {
        name: b"low".as_slice(),
        token: Some(0),
        low: 0,
        high: 1,
        signed: false,
        dec: false,
        noflow: false,
    };
    for (relation, number, place, cubes, count) in ROWS {
        let constraint = Constraint {
            tokens: &tokens,
            field: &field,
            relation: *relation,
            number: *number,
        };
        let mut put = Vec::new(rt.alloc());
        constraint.put_cubes(rt.alloc(), *place, &mut put)?;
        assert_eq!(rt; put.len(), cubes.len(), "{relation:?} {number}");
        for (cube, (mask, value)) in put.iter().zip(*cubes) {
            assert_eq!(rt;
                ((cube.mask >> 112) as u16, (cube.value >> 112) as u16),
                (*mask, *value)
            );
        }
        assert_eq!(rt;
            constraint.count(rt.alloc())?,
            *count,
            "{relation:?} {number}"
        );
    }
    Ok(())
}
