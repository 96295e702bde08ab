//! A section that several workers write.

use dwz_encode::{info_by, info_of};
use dwz_layout::{EntryTable, Layout, Sort, UnitItems};
use dwz_layout_items::{Item, ItemKind};
use dwz_model::{DwzList, NoMemory};
use std::alloc::Global;
use std::test::Fail;

// So many units have 460 kB, each 23 bytes.
const COUNT: u32 = 20000;

// Partial units, each with a line table of its own and an import of another one.
fn partials(alloc: Global) -> Result<Vec<UnitItems>, NoMemory> {
    let mut units = Vec::new(alloc);
    for unit in 0..COUNT {
        let root = Item {
            what: ItemKind::Root,
            depth: 1,
        };
        let import = Item {
            what: ItemKind::Import(unit),
            depth: 2,
        };
        units.push(UnitItems {
            sort: Sort::Partial(Some(unit)),
            items: DwzList::new(vec![in alloc; root, import]?),
        })?;
    }
    Ok(units)
}

// Units with their numbers, and their bytes by hand (DWARF 5, 7.5): the length, version 5, `DW_UT_partial`, the size of an address, the
// offset of its table; its root, with the offset of its line table; an import, with the offset of the other unit's root; the end of the
// root's children.
const BY_HAND: [(usize, &[u8]); 3] = [
    (
        0,
        b"\x13\0\0\0\x05\0\x03\x08\0\0\0\0\x01\0\0\0\0\x02\xd5\x04\x07\0\0",
    ),
    (
        5000,
        b"\x13\0\0\0\x05\0\x03\x08\0\0\0\0\x01\x88\x13\0\0\x02\x9d\x43\x05\0\0",
    ),
    (
        19999,
        b"\x13\0\0\0\x05\0\x03\x08\0\0\0\0\x01\x1f\x4e\0\0\x02\x0c\0\0\0\0",
    ),
];

#[test]
fn several_workers_write_what_one_writes(rt: HostRuntime) -> Result<(), Fail> {
    let alloc = rt.alloc();
    // Nothing was read. The partial units stand last to first.
    let known = EntryTable {
        files: Vec::new(alloc),
        owners: Vec::new(alloc),
        tops: Vec::new(alloc),
        spaces: Vec::new(alloc),
        parts: (0..COUNT).rev().collect(alloc)?,
        commons: 0,
    };
    let orders = [DwzList::new(partials(alloc)?)];
    let layout = Layout::make(alloc, &known, &orders)?;
    assert!(rt; layout.len() == 1);
    let units = orders[0].as_slice();
    let laid = layout.file(0);
    let one = info_of(alloc, &known, layout.spots(), 0, units, laid)?;
    assert!(rt; one.len() == 460_000);
    for (unit, bytes) in BY_HAND {
        assert!(rt; one.chunks_exact(23).nth(unit) == Some(bytes));
    }
    for workers in [0, 1, 2, 3, 4, 64] {
        let info = info_by(&rt, alloc, workers, &known, layout.spots(), 0, units, laid)?;
        assert!(rt; info.as_slice() == one.as_slice(), "by {workers}");
    }
    Ok(())
}
