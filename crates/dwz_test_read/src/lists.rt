//! Small lists with expressions, counted by hand.

use crate::expect::{bytes_of, number_of, prints_as, same, split_bar};
use dwz_lists::{walk, walk_into};

// A section and a place in it; how many expressions the list there has, the place behind it, where its last expression stands, and whether
// that has an address; and its operands. The lists are: an offset_pair of breg0 0, convert 0x2a, stack_value, behind twelve bytes; an
// offset_pair with two conversions; and base_addressx, a view pair, default_location, base_address, start_end, startx_endx and
// start_length, with nop for an expression. Then come lists of one default_location: of a padded number, of conversions to the generic
// type, and of an entry_value of (const_type 5, one byte), implicit_pointer 7 -1 and addrx 2.
const LISTS: &str = "\
000000000000000000000000040004057000a82a9f00|12|\
((1, 22, 16, false), [Operand { at: 19, width: 1, uleb: true, base: Unit, number: 42 }])
040004077000a80ea87d9f00|0|\
((1, 12, 4, false), [Operand { at: 7, width: 1, uleb: true, base: Unit, number: 14 }, \
Operand { at: 9, width: 1, uleb: true, base: Unit, number: 125 }])
010109000005019606010101010101010107010101010101010102020202020202020196080101010101010101090000|0|\
((3, 48, 47, false), [])
05077000a88ea87d9f00|0|\
((1, 10, 2, false), [Operand { at: 5, width: 3, uleb: true, base: Unit, number: 2053134 }])
0504a800a90000|0|((1, 7, 2, false), [])
050ea304a4050109a0070000007fa10200|0|\
((1, 17, 2, true), [Operand { at: 5, width: 1, uleb: true, base: Unit, number: 5 }, \
Operand { at: 9, width: 4, uleb: false, base: Info, number: 7 }])";

#[test]
fn walks_lists(rt: HostRuntime) {
    let alloc = rt.alloc();
    for row in LISTS.lines() {
        let (digits, row) = split_bar(&rt, row);
        let (at, shown) = split_bar(&rt, row);
        let section = bytes_of(&rt, alloc, digits);
        let section = section.as_slice();
        let at = u64::from(number_of(&rt, at));
        assert!(rt; at < section.len() as u64);
        let list = walk(alloc, section, at).expect(&rt, "a list");
        let mut operands = Vec::new(alloc);
        same(&rt, &walk_into(&mut operands, section, at), &Ok(list.end()));
        let exprs = list.exprs();
        let last = exprs.last().expect(&rt, "an expression");
        let found = (exprs.len(), list.end(), last.at(), last.has_address());
        prints_as(&rt, alloc, row, &(found, operands.as_slice()), shown);
    }
}
