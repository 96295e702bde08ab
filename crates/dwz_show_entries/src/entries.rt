//! The units and the entries of a file, a line for each.

ghost use Rattle.std.specs.Prelude.{◌<◌, length};

use crate::tops::show_top;
use crate::values::show_value;
use dwz_codes::{Row, attribute_names, forms, tag_names};
use dwz_graph::Graph;
use dwz_graph_view::{AttrView, EntryView, UnitView, attr, entry, section, unit, units};
use dwz_model::{DEBUG_INFO, Place, UnitKind};
use std::alloc::Global;

// Where a unit begins, its number, and where its root begins; its language, and the type that it describes.
fn show_unit(rt: &impl Print, number: u32, view: &UnitView) -> anyhow::Result<()> {
    print!(rt;
        "  0x{:x}: unit {number}, root at 0x{:x}",
        view.place.offset, view.root.offset
    )?;
    if let Some(language) = view.language {
        print!(rt; ", language {language}")?;
    }
    if let UnitKind::TypeUnit { signature, main } = view.kind {
        print!(rt; ", type 0x{signature:x} at 0x{:x}", main.offset)?;
    }
    println!(rt)?;
    Ok(())
}

/// The units of files that were read, in order of place.
pub(crate) fn show_units(rt: &impl Print, graph: &Graph) -> anyhow::Result<()> {
    for number in 0..units(graph) {
        show_unit(rt, number, &unit(graph, number))?;
    }
    Ok(())
}

// The name that a table has for a code, or else the code.
fn show_name(rt: &impl Print, row: Option<Row>, code: u16) -> anyhow::Result<()> {
    match row {
        Some(row) => print!(rt; " {}", row.name)?,
        None => print!(rt; " 0x{code:x}")?,
    }
    Ok(())
}

// An attribute: its name, its form, and what it says.
fn show_attr(rt: &impl Print, attr: &AttrView<'_>) -> anyhow::Result<()> {
    print!(rt; "     ")?;
    show_name(rt, attribute_names().find(u64::from(attr.name)), attr.name)?;
    print!(rt; " (")?;
    match forms().find(u64::from(attr.form)) {
        Some(row) => print!(rt; "{}", row.name)?,
        None => print!(rt; "0x{:x}", attr.form)?,
    }
    print!(rt; ")")?;
    show_value(rt, &attr.value)?;
    println!(rt)?;
    Ok(())
}

// Where an entry begins, its tag, its top, and its attributes, a line for each.
fn show_entry(
    rt: &impl Print,
    alloc: Global,
    graph: &Graph,
    place: Place,
    view: &EntryView,
) -> anyhow::Result<()> {
    print!(rt; "  0x{:x}:", place.offset)?;
    show_name(rt, tag_names().find(u64::from(view.tag)), view.tag)?;
    show_top(rt, alloc, graph, place)?;
    println!(rt)?;
    for index in 0..view.attrs {
        if let Some(attr) = attr(alloc, graph, place, index)? {
            show_attr(rt, &attr)?;
        }
    }
    Ok(())
}

/// The entries of the first of files that were read, in order of place.
pub(crate) fn show_entries(rt: &impl Print, alloc: Global, graph: &Graph) -> anyhow::Result<()>
    requires { 0 < length graph.now.given }
{
    let Some(info) = section(graph, 0, DEBUG_INFO) else {
        return Ok(());
    };
    for offset in 0..u32::try_from(info.len())? {
        let place = Place { file: 0, offset };
        if let Some(view) = entry(graph, place) {
            show_entry(rt, alloc, graph, place, &view)?;
        }
    }
    Ok(())
}
