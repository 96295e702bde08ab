//! Vectors from outside: those of the DWARF standard's section on LEB128 numbers, and the ends of the ranges.

use crate::expect::holds;
use dwz_bytes::{Cursor, put_fixed, put_padded, put_sleb, put_uleb};

const UNSIGNED: [u64; 7] = [2, 127, 128, 129, 12857, 624485, u64::MAX];

const SIGNED: [i64; 10] = [2, -2, 127, -127, 128, -128, 129, -129, i64::MIN, i64::MAX];

// How they are spelled, one after the other: the unsigned ones, and then the signed ones.
const SPELLED: &[u8] = b"\
    \x02\x7f\x80\x01\x81\x01\xb9\x64\xe5\x8e\x26\xff\xff\xff\xff\xff\xff\xff\xff\xff\x01\
    \x02\x7e\xff\x00\x81\x7f\x80\x01\x80\x7f\x81\x01\xff\x7e\
    \x80\x80\x80\x80\x80\x80\x80\x80\x80\x7f\xff\xff\xff\xff\xff\xff\xff\xff\xff\x00";

#[test]
fn reads_and_writes_leb128(rt: HostRuntime) {
    let mut cursor = Cursor::new(SPELLED, 0);
    let mut out = Vec::new(rt.alloc());
    for number in UNSIGNED {
        put_uleb(&mut out, number).expect(&rt, "memory");
        holds(&rt, "unsigned", cursor.uleb() == Ok(number));
    }
    for number in SIGNED {
        put_sleb(&mut out, number).expect(&rt, "memory");
        holds(&rt, "signed", cursor.sleb() == Ok(number));
    }
    holds(&rt, "all", out.as_slice() == SPELLED);
}

#[test]
fn writes_to_a_width(rt: HostRuntime) {
    let mut bytes = *b"7777";
    let is_put = put_padded(&mut bytes[..1], 128);
    holds(&rt, "too narrow", !is_put && bytes == *b"7777");
    let is_put = put_padded(&mut bytes[..2], 13);
    holds(&rt, "padded", is_put && bytes == *b"\x8d\x0077");
    let mut out = Vec::new(rt.alloc());
    put_fixed(&mut out, 2, 0x0302).expect(&rt, "memory");
    put_fixed(&mut out, 1, 0x10ff).expect(&rt, "memory");
    holds(&rt, "fixed", out.as_slice() == b"\x02\x03\xff".as_slice());
}
