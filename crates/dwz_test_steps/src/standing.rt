//! The layout of a file over a common file that stands.

use crate::finished::{COMMON, PLAIN};
use dwz_encode::info_of;
use dwz_graph::Graph;
use dwz_layout::{EntryTable, Layout, Sort, UnitItems};
use dwz_layout_items::{Item, ItemKind};
use dwz_model::{DwzList, NoMemory};
use std::alloc::Global;
use std::test::Fail;

// A partial unit with the import of another one.
fn importing(alloc: Global, part: u32) -> Result<UnitItems, NoMemory> {
    let root = Item {
        what: ItemKind::Root,
        depth: 1,
    };
    let import = Item {
        what: ItemKind::Import(part),
        depth: 2,
    };
    Ok(UnitItems {
        sort: Sort::Partial(None),
        items: DwzList::new(vec![in alloc; root, import]?),
    })
}

// Two units by hand (DWARF 5, 7.5): the length, version 5, `DW_UT_partial`, the size of an address, the offset of its table; its root; an
// import, with the offset of the root of the unit; the end of the root's children. The first unit imports the one of the common file
// (`DW_FORM_ref_sup4`), the second one the first (`DW_FORM_ref_addr`), so each has a table of its own.
const BY_HAND: &[u8] =
    b"\x0f\0\0\0\x05\0\x03\x08\0\0\0\0\x01\x02\x0c\0\0\0\0\x0f\0\0\0\x05\0\x03\x08\x0d\0\0\0\x01\x02\x0c\0\0\0\0";

#[test]
fn a_common_file_keeps_its_places(rt: HostRuntime) -> Result<(), Fail> {
    let alloc = rt.alloc();
    let common = hex::decode(alloc, COMMON)?;
    let files = [hex::decode(alloc, PLAIN)?];
    let graph = Graph::read_sup(alloc, &files, common.as_slice())?;
    let shared = graph.common().expect(&rt, "the common file");
    let known = EntryTable {
        files: Vec::new(alloc),
        owners: vec![in alloc; 1, 0, 0]?,
        tops: Vec::new(alloc),
        spaces: Vec::new(alloc),
        parts: vec![in alloc; 0, 1]?,
        commons: 1,
    };
    let units = vec![in alloc; importing(alloc, 0)?, importing(alloc, 1)?]?;
    let orders = [DwzList::new(units)];
    let layout = Layout::over(alloc, &known, &shared.units, &orders)?;
    let spots = layout.spots();
    // The root of the common file stands behind a header, and its base type behind that.
    assert!(rt; spots.places.as_slice() == [0, 12, 13].as_slice());
    assert!(rt; spots.roots.as_slice() == [12, 12, 31].as_slice());
    assert!(rt; layout.len() == 1);
    let info = info_of(
        alloc,
        &known,
        spots,
        1,
        orders[0].as_slice(),
        layout.file(0),
    )?;
    assert!(rt; info.as_slice() == BY_HAND);
    Ok(())
}
