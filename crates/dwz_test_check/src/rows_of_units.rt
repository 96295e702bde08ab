//! Whether two files mean the same, by rows of their units: small files that were worked out by hand, and many beside the plain way, which
//! looks for each item of one unit among those of the other. And the line of each answer.

ghost use Rattle.std.specs.Prelude.{ℕ, ◌<◌};

use crate::expect::holds;
use crate::fitting::fit;
use dwz_check_rows::{Columns, RowKind, UnitNodes, check_text, compare};
use dwz_def_check::Same;
use dwz_groups::{Edge, Groups, group};
use dwz_model::{DwzList, at_or};
use std::alloc::Global;
use std::process::Abort;

// ---- files that are written down

// Nodes and units in order.
#[derive(Drop)]
struct Rows {
    names: Vec<u32>,
    classes: Vec<u32>,
    plain: Vec<bool>,
    units: Vec<UnitNodes>,
    paths: Vec<Edge>,
    imports: Vec<Edge>,
    old: usize,
    new: usize,
}

// What the next digit is.
#[derive(Clone, Copy)]
enum Next {
    /// The class of a node.
    Class,
    Signature,
    Step,
    Import,
}

fn few(n: usize) -> u32 {
    if n < 1_000_000 { n as u32 } else { 0 }
}

fn digit(byte: u8) -> u32 {
    u32::from(byte.wrapping_sub(b'0'))
}

// The old file, the new one and the common one, parted by bars. A unit is `C`, its root and spaces, a dot, and its tops; `T`, its
// signature, a dot, its top, and behind a slash the path to its type; or `P` and its tops. A node is its name list as a letter, and its class
// as a digit; before a top that imports a partial unit stands `!`. Behind `>` are the numbers of what the unit imports, over all files; and a
// semicolon ends it.
fn read_rows(rt: &impl Abort, alloc: Global, text: &[u8]) -> Rows {
    let mut rows = Rows {
        names: Vec::new(alloc),
        classes: Vec::new(alloc),
        plain: Vec::new(alloc),
        units: Vec::new(alloc),
        paths: Vec::new(alloc),
        imports: Vec::new(alloc),
        old: 0,
        new: 0,
    };
    let mut files = 0;
    let mut kind = RowKind::Partial;
    let mut top = 0;
    let mut names = 0;
    let mut is_plain = true;
    let mut next = Next::Class;
    for &byte in text {
        let node = few(rows.names.len());
        let unit = few(rows.units.len());
        match byte {
            b'C' => {
                kind = RowKind::Compile {
                    root: node,
                    spaces_end: node,
                };
                next = Next::Class;
            }
            b'T' => next = Next::Signature,
            b'P' => {
                kind = RowKind::Partial;
                top = node;
                next = Next::Class;
            }
            b'.' => {
                if let RowKind::Compile { root, .. } = kind {
                    kind = RowKind::Compile {
                        root,
                        spaces_end: node,
                    };
                }
                top = node;
                next = Next::Class;
            }
            b'!' => is_plain = false,
            b'/' => next = Next::Step,
            b'>' => next = Next::Import,
            b';' => {
                let nodes = UnitNodes {
                    kind,
                    top,
                    tops_end: node,
                };
                rows.units.push(nodes).expect(rt, "memory");
            }
            b'|' => {
                if files == 0 {
                    rows.old = rows.units.len();
                } else {
                    rows.new = rows.units.len().saturating_sub(rows.old);
                }
                files = 1;
            }
            b'0'..=b'9' => match next {
                Next::Class => {
                    rows.names.push(names).expect(rt, "memory");
                    rows.classes.push(digit(byte)).expect(rt, "memory");
                    rows.plain.push(is_plain).expect(rt, "memory");
                    is_plain = true;
                }
                Next::Signature => {
                    kind = RowKind::OfType {
                        signature: u64::from(digit(byte)),
                    }
                }
                Next::Step => rows
                    .paths
                    .push(Edge {
                        key: unit,
                        value: digit(byte),
                    })
                    .expect(rt, "memory"),
                Next::Import => rows
                    .imports
                    .push(Edge {
                        key: unit,
                        value: digit(byte),
                    })
                    .expect(rt, "memory"),
            },
            _ => names = u32::from(byte.wrapping_sub(b'a')),
        }
    }
    rows
}

fn grouped(rt: &impl Abort, alloc: Global, count: usize, edges: &[Edge]) -> Groups {
    let are_keys = edges.iter().all(|edge| (edge.key as usize) < count);
    assert!(rt; are_keys);
    group(alloc, count, edges).expect(rt, "memory")
}

// What is answered. The test ends where the text has no such columns.
fn answered(rt: &impl Abort, alloc: Global, rows: &Rows) -> Same {
    let count = rows.units.len();
    let columns = Columns {
        names: DwzList::new(rows.names.as_slice().to_vec(alloc).expect(rt, "memory")),
        plain: DwzList::new(rows.plain.as_slice().to_vec(alloc).expect(rt, "memory")),
        units: DwzList::new(rows.units.as_slice().to_vec(alloc).expect(rt, "memory")),
        old: rows.old,
        new: rows.new,
        paths: grouped(rt, alloc, count, rows.paths.as_slice()),
        imports: grouped(rt, alloc, count, rows.imports.as_slice()),
    };
    let classes = rows.classes.as_slice();
    let is_fit = fit(&columns, classes.len());
    assert!(rt; is_fit);
    compare(alloc, classes, &columns).expect(rt, "memory")
}

// Both files, and the line that is printed.
const CASES: &str = "\
|| is same: no units
Ca1b2b3.a4c5;|Ca1b3b2.c5a4a4;| is same: another order, and one top twice
Ca1.a4;|Ca2.a4;| is differs: unit 0: roots
Ca1b2.a4;|Ca1c2.a4;| is differs: unit 0: name lists of spaces
Ca1b2.a4;|Ca1b2b3.a4;| is differs: unit 0: one more space
Ca1.a4b4;|Ca1.a4;| is differs: unit 0: one more name list of tops
Ca1.a4a5;|Ca1.!a9a4>2;|Pa6; is differs: unit 0: another top of a common unit
Ca1.a4a5;|Ca1.!a9a4>2;|Pa5; is same: a top of a common unit
Ca1.!a9>1;Pa4b5;|Ca1.a4b5;| is same: tops of a partial unit of its own
Ca1.!a9>2;Ca2.!a9>2;Pa4;|Ca1.a4;Ca2.a4;| is same: two units import one
Ca1.!a9!a8>45;Ca2.a4;|Ca1.a4a5b6;Ca2.a4;|Pa5a4;Pb6a5; is same: numbers go over all files
Ca1.!a9!a8>23;|Ca1.a4a5b6;|Pa5a4;Pb6a5; is same: two common units with a top of both
Ca1.!a9;|Ca1.;| is same: what imports isn't compared
T7.a1/01;|T7.a1/01;| is same: type units
T7.a1/01;|T8.a1/01;| is differs: unit 0: signatures
T7.a1/01;|T7.a1/0;| is differs: unit 0: paths
T7.a1/01;|T7.a2/01;| is differs: unit 0: types
T7.a1/;|Ca1.;| is differs: unit 0: kinds
Pa1;Ca1.;Ca2.;|Ca1.;Pa2;Ca3.;| is differs: unit 1: partial units aren't counted
Ca1.;Ca1.;Pa1;|Ca2.;| is differs: units 2, 1: numbers of units come first
";

#[test]
fn tells_the_first_units_that_differ(rt: HostRuntime) {
    let alloc = rt.alloc();
    for line in CASES.lines() {
        let (text, rest) = line.split_once(" is ").expect(&rt, "files");
        let same = answered(&rt, alloc, &read_rows(&rt, alloc, text.as_bytes()));
        let told = check_text(alloc, &same).expect(&rt, "memory");
        let told = told.as_slice();
        let rest = rest.as_bytes();
        let long = told.len();
        let is = long > 0
            && long < rest.len()
            && told[long - 1] == b'\n'
            && told[..long - 1] == rest[..long - 1]
            && rest[long - 1] == b':';
        holds(&rt, line, is);
    }
}

// ---- the plain way

// Whether each of these nodes has one of the others with its name list and its class.
fn covers(rows: &Rows, nodes: &[u32], others: &[u32]) -> bool {
    for a in nodes {
        let mut found = false;
        for b in others {
            let (a, b) = (*a as usize, *b as usize);
            let names = at_or(rows.names.as_slice(), a, 0) == at_or(rows.names.as_slice(), b, 0);
            let classes = at_or(rows.classes.as_slice(), a, 0)
                == at_or(rows.classes.as_slice(), b, 0);
            found = found || names && classes;
        }
        if !found {
            return false;
        }
    }
    true
}

fn are_equal(rows: &Rows, nodes: &[u32], others: &[u32]) -> bool {
    covers(rows, nodes, others) && covers(rows, others, nodes)
}

// The nodes from `start` up to `end`.
fn between(rt: &impl Abort, alloc: Global, start: u32, end: u32) -> Vec<u32> {
    let mut nodes = Vec::new(alloc);
    for node in start..end {
        nodes.push(node).expect(rt, "memory");
    }
    nodes
}

const NONE: UnitNodes = UnitNodes {
    kind: RowKind::Partial,
    top: 0,
    tops_end: 0,
};

// The tops of a unit that import nothing, behind those that are there.
fn push_tops(rt: &impl Abort, rows: &Rows, unit: u32, tops: &mut Vec<u32>) {
    let nodes = at_or(rows.units.as_slice(), unit as usize, NONE);
    for node in nodes.top..nodes.tops_end {
        if at_or(rows.plain.as_slice(), node as usize, false) {
            tops.push(node).expect(rt, "memory");
        }
    }
}

fn tops_of(rt: &impl Abort, alloc: Global, rows: &Rows, unit: u32) -> Vec<u32> {
    let mut tops = Vec::new(alloc);
    push_tops(rt, rows, unit, &mut tops);
    for import in &rows.imports {
        if import.key == unit {
            push_tops(rt, rows, import.value, &mut tops);
        }
    }
    tops
}

// Whether two compile units are the same. No type unit is made here.
fn are_same(rt: &impl Abort, alloc: Global, rows: &Rows, old: u32, new: u32) -> bool {
    let kind = at_or(rows.units.as_slice(), old as usize, NONE).kind;
    let RowKind::Compile { root, spaces_end } = kind else {
        return false;
    };
    let spaces = between(rt, alloc, root, spaces_end);
    let kind = at_or(rows.units.as_slice(), new as usize, NONE).kind;
    let RowKind::Compile { root, spaces_end } = kind else {
        return false;
    };
    let others = between(rt, alloc, root, spaces_end);
    let tops = tops_of(rt, alloc, rows, old);
    let other_tops = tops_of(rt, alloc, rows, new);
    are_equal(rows, &spaces, &others) && are_equal(rows, &tops, &other_tops)
}

// The answer, where each file has two compile units, and behind them a partial one.
fn plain_answer(rt: &impl Abort, alloc: Global, rows: &Rows) -> Same {
    if !are_same(rt, alloc, rows, 0, 3) {
        return Same::Unit(0);
    }
    if !are_same(rt, alloc, rows, 1, 4) {
        return Same::Unit(1);
    }
    Same::Yes
}

// ---- files by chance

// A number below n.
fn throw(seed: &mut u64, n: u64) -> u64
    requires { 0 < n }
    ensures { result < n }
{
    *seed = seed
        .wrapping_mul(6_364_136_223_846_793_005)
        .wrapping_add(1_442_695_040_888_963_407);
    (*seed >> 33) % n
}

// Up to `most` of three pieces of two bytes.
fn push_pieces(rt: &impl Abort, seed: &mut u64, most: u64, pieces: &[u8], text: &mut Vec<u8>) {
    for _ in 0..throw(seed, 4) % (most % 8 + 1) {
        let at = throw(seed, 3) as usize * 2;
        text.push(at_or(pieces, at, b'a')).expect(rt, "memory");
        text.push(at_or(pieces, at + 1, b'1')).expect(rt, "memory");
    }
}

// A file of two compile units and a partial one, which has that digit as its number.
fn push_file(rt: &impl Abort, seed: &mut u64, own: u8, text: &mut Vec<u8>) {
    for _ in 0..2 {
        text.extend_from_slice(b"Ca1").expect(rt, "memory");
        push_pieces(rt, seed, 2, b"b1b2b1", text);
        text.push(b'.').expect(rt, "memory");
        push_pieces(rt, seed, 3, b"a4b5a4", text);
        if throw(seed, 3) == 0 {
            text.extend_from_slice(b"!a9").expect(rt, "memory");
        }
        text.push(b'>').expect(rt, "memory");
        for import in [own, b'6', b'7'] {
            if throw(seed, 2) == 0 {
                text.push(import).expect(rt, "memory");
            }
        }
        text.push(b';').expect(rt, "memory");
    }
    push_partial(rt, seed, text);
}

fn push_partial(rt: &impl Abort, seed: &mut u64, text: &mut Vec<u8>) {
    text.push(b'P').expect(rt, "memory");
    push_pieces(rt, seed, 3, b"a4a5b5", text);
    text.push(b';').expect(rt, "memory");
}

#[test]
fn answers_as_the_plain_way_does(rt: HostRuntime) {
    let alloc = rt.alloc();
    let mut seed = 1;
    let mut same = 0u32;
    let mut later = 0u32;
    for _ in 0..500u32 {
        let mut text = Vec::new(alloc);
        push_file(&rt, &mut seed, b'2', &mut text);
        text.push(b'|').expect(&rt, "memory");
        push_file(&rt, &mut seed, b'5', &mut text);
        text.push(b'|').expect(&rt, "memory");
        push_partial(&rt, &mut seed, &mut text);
        push_partial(&rt, &mut seed, &mut text);
        let rows = read_rows(&rt, alloc, text.as_slice());
        let found = check_text(alloc, &answered(&rt, alloc, &rows)).expect(&rt, "memory");
        let plain = plain_answer(&rt, alloc, &rows);
        match plain {
            Same::Yes => same = same.wrapping_add(1),
            Same::Unit(n) => later = later.wrapping_add(n),
            Same::Units { .. } => {}
        }
        let plain = check_text(alloc, &plain).expect(&rt, "memory");
        holds(&rt, "by chance", found.as_slice() == plain.as_slice());
    }
    holds(&rt, "some are the same", same > 0);
    holds(&rt, "some differ later", later > 0);
}
