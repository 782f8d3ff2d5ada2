// Numbers in bytes, put where memory suffices, and taken.

use ac_bytes::{Cursor, Out};
use ac_types::Name;

// -1 and the least number.
const COMPLEMENTS: [u8; 16] = [
    255, 255, 255, 255, 255, 255, 255, 255, 128, 0, 0, 0, 0, 0, 0, 0,
];

#[test]
fn puts_the_highest_byte_first(rt: HostRuntime) {
    let mut out = Out::new(rt.alloc());
    out.put_u8(9).expect(&rt, "memory");
    out.put_u16(0x0102).expect(&rt, "memory");
    out.put_u32(0x0102_0304).expect(&rt, "memory");
    out.put_bytes(b"ab").expect(&rt, "memory");
    let text = out.into_text();
    assert_eq!(rt;
        text.as_slice(),
        [9, 1, 2, 1, 2, 3, 4, b'a', b'b'].as_slice()
    );
}

#[test]
fn puts_twos_complement(rt: HostRuntime) {
    let mut out = Out::new(rt.alloc());
    out.put_i64(-1).expect(&rt, "memory");
    out.put_i64(i64::MIN).expect(&rt, "memory");
    let text = out.into_text();
    assert_eq!(rt; text.as_slice(), COMPLEMENTS.as_slice());
}

// Whether these numbers of each width are taken.
fn takes_numbers(cursor: &mut Cursor<'_>) -> bool {
    let numbers = (cursor.take_u8(), cursor.take_u16(), cursor.take_u32());
    numbers == (Some(9), Some(0x0102), Some(0x0102_0304))
}

#[test]
fn takes_the_highest_byte_first(rt: HostRuntime) {
    let mut cursor = Cursor::new(&[9, 1, 2, 1, 2, 3, 4, b'a', b'b', b'c']);
    assert!(rt; takes_numbers(&mut cursor));
    assert!(rt; cursor.take_bytes(2) == Some(b"ab".as_slice()));
    assert!(rt; cursor.place() == 9 && !cursor.at_end());
    assert!(rt; cursor.take_u16().is_none());
    assert!(rt; cursor.place() == 9);
    assert!(rt; cursor.take_u8() == Some(b'c'));
    assert!(rt; cursor.at_end());
}

#[test]
fn takes_twos_complement(rt: HostRuntime) {
    let mut cursor = Cursor::new(&COMPLEMENTS);
    let numbers = [cursor.take_i64(), cursor.take_i64(), cursor.take_i64()];
    assert_eq!(rt; numbers, [Some(-1), Some(i64::MIN), None]);
}

#[test]
fn takes_names(rt: HostRuntime) {
    let mut cursor = Cursor::new(&[7; 32]);
    assert!(rt; cursor.take_name() == Some(Name([7; 32])));
    assert!(rt; cursor.take_name().is_none());
}

#[test]
fn takes_counts(rt: HostRuntime) {
    let mut cursor = Cursor::new(&[0, 0, 1, 0]);
    assert!(rt; cursor.counted(255).is_none());
    assert!(rt; cursor.place() == 0);
    assert!(rt; cursor.counted(256) == Some(256));
    assert!(rt; cursor.counted(256).is_none());
}
