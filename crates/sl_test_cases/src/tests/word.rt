ghost use Rattle.std.specs.Prelude.{◌≡◌, IfOk};

use sl_word::{AddressSize, Change, Endian, Size, SpaceId, State, Word};
use std::test::Fail;

fn size(n: u8) -> Result<Size, Fail> {
    Ok(Size::new(n).ok_or("a size")?)
}

fn address_size(n: u8) -> Result<AddressSize, Fail>
    ensures { IfOk result (λ size. size.bytes ≡ n) }
{
    Ok(AddressSize::new(n).ok_or("a size")?)
}

static CHANGES: [Change; 5] = [
    Change {
        space: SpaceId(0),
        offset: 0xfffd,
        byte: 1,
    },
    Change {
        space: SpaceId(0),
        offset: 0xfffe,
        byte: 2,
    },
    Change {
        space: SpaceId(0),
        offset: 0xffff,
        byte: 3,
    },
    Change {
        space: SpaceId(1),
        offset: 0,
        byte: 0x22,
    },
    Change {
        space: SpaceId(1),
        offset: 0xff,
        byte: 0x11,
    },
];

#[test]
fn a_state_keeps_what_is_written(rt: HostRuntime) -> Result<(), Fail> {
    let (ram, small) = (SpaceId(0), SpaceId(1));
    let sizes = [address_size(2)?, address_size(1)?];
    let opening = State::new(rt.alloc(), Endian::Big, &sizes)?;
    let mut state = State::new(rt.alloc(), Endian::Big, &sizes)?;
    state.load_image(ram, 0xfffd, b"\x01\x02\x03")?;
    let word = Word::new(0x1122, size(2)?).ok_or("a word")?;
    state.write(small, 0xff, word)?;
    assert_eq!(rt; state.read(ram, 0xfffe, size(4)?).bits, 0x0203_0000);
    assert_eq!(rt; state.read(small, 0x1ff, size(2)?).bits, 0x1122);
    let changes = state.changes(rt.alloc(), &opening)?;
    assert!(rt; changes.iter().eq(&CHANGES));
    Ok(())
}
