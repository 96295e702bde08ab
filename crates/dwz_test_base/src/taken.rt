//! What units take from a finished common file, by small rows that were worked out by hand.

use crate::expect::holds;
use crate::taken_rows::{are_apart, are_kin, are_rows, grouped, lists_of};
use dwz_groups::Groups;
use dwz_model::{DwzList, Flags, Numbers};
use dwz_takes::{Rows, blocked, images, takes};
use std::alloc::Global;
use std::process::Abort;

// Units with their tops and with their names; partial units with their tops, with their names and with what they refer to; and what each
// unit takes. Tops are digits, of which those that differ by 5 are alike.
const CASES: &str = "\
01|-|56|-|- is 0: all that a partial unit has
0|-|56|-|- is -: a top has none like it
01 1 0|- - -|5 6|- -|- - is 01 1 0: each unit by itself
00|-|555|-|- is 0: tops that are alike to each other
0|-|5 0 5|- - -|- - - is 012: partial units with alike tops
0 01|- -|5 6|- -|1 - is - 01: what a partial unit refers to is missed with it
0 01|- -|6 5|- -|- 0 is - 01: the same where it comes first
0 01|- -|5 6|- -|- - is 0 01: nothing refers
01 012|- -|5 6 7|- - -|1 2 - is - 012: a chain
12 0|- -|5 6 7|- - -|1 2 - is 12 -: a part of the chain
01 0 1|- - -|5 6|- -|1 0 is 01 - -: a cycle is taken whole
0|-|5|-|0 is 0: one that refers to itself
01 0|- -|5 6 7|- - -|1 0 0 is 01 -: what refers into a cycle, and isn't there itself
012 02|- -|5 6 7|- - -|- - 01 is 012 0: two references
0123 012|- -|5 6 7 8|- - - -|11 3 1 - is 0123 -: ways that join
0 0|1 -|5|1|- is 0 -: names of spaces
0 0|012 02|5 5|02 1|- - is 01 0: some of the names
0|1|-|1|- is -: a partial unit without tops
0|-|- 5|- -|- 0 is -: one that refers to it
-|1|5|-|- is -: a unit without tops
-|-|-|-|- is -: nothing at all
01|-|59|-|- is -: a top that no unit has
04|-|59 9 4|- - -|2 - 1 is 012: one of those of the files stands in a partial unit
";

// The rows of a text.
fn rows_of(rt: &impl Abort, alloc: Global, text: &str) -> Rows {
    let (unit_tops, more) = text.split_once('|').expect(rt, "tops");
    let (unit_names, more) = more.split_once('|').expect(rt, "names");
    let (part_tops, more) = more.split_once('|').expect(rt, "tops of partial units");
    let (part_names, part_targets) = more.split_once('|').expect(rt, "their names");
    let classes = Vec::from_slice(alloc, &[0, 1, 2, 3, 4, 0, 1, 2, 3, 4]).expect(rt, "memory");
    Rows {
        classes: Numbers::new(classes),
        unit_tops: lists_of(rt, alloc, unit_tops),
        unit_names: lists_of(rt, alloc, unit_names),
        part_tops: lists_of(rt, alloc, part_tops),
        part_names: lists_of(rt, alloc, part_names),
        part_targets: lists_of(rt, alloc, part_targets),
        names: 10,
    }
}

// The list with that number.
fn list(lists: &Groups, number: usize) -> &[u32] {
    if number < lists.len() {
        lists.get(number)
    } else {
        &[]
    }
}

// Whether the lists are these.
fn are_lists(found: &[Numbers], expected: &Groups) -> bool {
    if found.len() != expected.len() {
        return false;
    }
    for (number, numbers) in found.iter().enumerate() {
        if numbers.as_slice() != list(expected, number) {
            return false;
        }
    }
    true
}

#[test]
fn takes_what_fits(rt: HostRuntime) {
    for line in CASES.lines() {
        let (words, _shows) = line.split_once(": ").expect(&rt, "what it shows");
        let (given, expected) = words.split_once(" is ").expect(&rt, "what is taken");
        let rows = rows_of(&rt, rt.alloc(), given);
        let are = are_rows(&rows);
        assert!(rt; are, "{line}");
        let found = takes(rt.alloc(), &rows).expect(&rt, "memory");
        let lists = lists_of(&rt, rt.alloc(), expected);
        holds(&rt, line, are_lists(found.as_slice(), &lists));
    }
}

// Which tops have to stay. The test ends where what is given isn't as it has to be.
fn staying(
    rt: &impl Abort,
    alloc: Global,
    kin: &[u32],
    images: &[Option<u32>],
    targets: &Groups,
) -> Flags {
    let are = are_kin(kin, images, targets);
    assert!(rt; are);
    blocked(alloc, kin, images, targets).expect(rt, "memory")
}

// For each top the number of its kin, and its image, each a digit; what it refers to; and whether it has to stay.
const STAYING: &str = "\
000|567|- - - is 000: all are taken
000|---|- - - is 000: none is taken
002|5--|- - 0 is 111: one is taken and one isn't, and a third one refers to it
0023|5---|- - 0 2 is 1111: a chain
0023|5---|2 - 3 2 is 1100: what they refer to may move
0101|5-5-|- - - - is 0000: the others are no kin
0101|55--|- - - - is 1111: kin of both
0011|5-66|- - - 0 is 1101: one that is taken itself
0|-|0 is 0: one that refers to itself
";

// The images of a text.
fn images_of(rt: &impl Abort, alloc: Global, text: &str) -> Vec<Option<u32>> {
    let mut images = Vec::new(alloc);
    for &byte in text.as_bytes() {
        let image = match byte {
            b'-' => None,
            _ => Some(u32::from(byte.wrapping_sub(b'0'))),
        };
        images.push(image).expect(rt, "memory");
    }
    images
}

// The images of tops that are all of the first unit.
fn imaged(rt: &impl Abort, alloc: Global, text: &str) -> DwzList<Option<u32>> {
    let rows = rows_of(rt, alloc, text);
    let are = are_rows(&rows);
    assert!(rt; are);
    let apart = are_apart(&rows, &[0; 10]);
    assert!(rt; apart);
    let found = takes(alloc, &rows).expect(rt, "memory");
    images(alloc, &rows, found.as_slice()).expect(rt, "memory")
}

// Whether the images are these, each a digit.
fn are_imaged(rt: &impl Abort, alloc: Global, rows: &str, expected: &str) -> bool {
    imaged(rt, alloc, rows).as_slice() == images_of(rt, alloc, expected).as_slice()
}

#[test]
fn an_image_is_the_first_alike_top(rt: HostRuntime) {
    let alloc = rt.alloc();
    let each = are_imaged(&rt, alloc, "01|-|56|-|-", "56--------");
    holds(&rt, "each has one", each);
    let least = are_imaged(&rt, alloc, "0|-|50|-|-", "0---------");
    holds(&rt, "the least of two", least);
    let taken = are_imaged(&rt, alloc, "01|-|67 5|- -|- -", "5---------");
    holds(&rt, "in a partial unit that is taken", taken);
}

// Whether these flags are those of a text.
fn are_flags(flags: &[bool], text: &str) -> bool {
    let mut expected = text.as_bytes().iter();
    for flag in flags {
        if expected.next() != Some(&if *flag { b'1' } else { b'0' }) {
            return false;
        }
    }
    expected.next().is_none()
}

#[test]
fn tells_what_has_to_stay(rt: HostRuntime) {
    for line in STAYING.lines() {
        let (words, _shows) = line.split_once(": ").expect(&rt, "what it shows");
        let (given, expected) = words.split_once(" is ").expect(&rt, "what has to stay");
        let (kin, more) = given.split_once('|').expect(&rt, "kin");
        let (image, target) = more.split_once('|').expect(&rt, "images");
        let kin = lists_of(&rt, rt.alloc(), kin);
        let images = images_of(&rt, rt.alloc(), image);
        let targets = lists_of(&rt, rt.alloc(), target);
        let found = staying(&rt, rt.alloc(), kin.items(), images.as_slice(), &targets);
        holds(&rt, line, are_flags(found.as_slice(), expected));
    }
}
