//! A small line table. What is expected was given by a model that was written independently.

use crate::expect::{number_of, same, split_bar};
use dwz_lines::TableRows;

const STRS: &[u8] = b"x\0inc\0";

const LINE_STRS: &[u8] = b"a.c\0b.h\0/abs.h\0";

// Two directories, whose paths stand there; four files with a path by line_strp, an index by data1 and a number that is
// skipped; and two bytes of a program.
const TABLE: &[u8] =
    b"\x3d\0\0\0\x05\0\x08\0\x33\0\0\0\x01\x01\x01\xfb\x0e\x02\x01\x01\x01\x08\x02/d\0inc\0\
\x03\x01\x1f\x02\x0b\x05\x0f\x04\0\0\0\0\0\x09\x04\0\0\0\x01\x80\x01\x08\0\0\0\x01\0\x04\0\0\0\0\0\xaa\xbb";

// How many rows may be kept, and how many may still be kept behind the table, which has two directories and four files (where these are too many,
// rows that are marked count, 16 at least); the number of a file, and its path.
const PATHS: &str = "\
100|94|0|/d/a.c
100|94|1|/d/inc/b.h
100|94|2|/abs.h
100|94|3|/d/b.h
6|0|0|/d/a.c
6|0|1|/d/inc/b.h
6|0|3|/d/b.h
5|0|0|/d/a.c
5|0|2|/abs.h
5|0|3|/d/b.h
0|0|1|/d/inc/b.h
0|0|3|/d/b.h";

#[test]
fn reads_paths_and_keeps_few_rows(rt: HostRuntime) {
    for row in PATHS.lines() {
        let (most, row) = split_bar(&rt, row);
        let (still, row) = split_bar(&rt, row);
        let (number, path) = split_bar(&rt, row);
        let mut left = number_of(&rt, most) as usize;
        let table = TableRows::read(rt.alloc(), TABLE, LINE_STRS, STRS, 0, &mut left).expect(
            &rt, "a table",
        );
        same(&rt, &left, &(number_of(&rt, still) as usize));
        let number = u64::from(number_of(&rt, number));
        let found = table.path(rt.alloc(), number).expect(&rt, "no memory");
        let found = found.expect(&rt, "a path");
        same(&rt, &found.as_slice(), &path.as_bytes());
        assert!(rt; !table.has_path(4) && !table.has_strp());
    }
}
