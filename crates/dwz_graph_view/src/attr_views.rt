//! Attributes with their values.

ghost use Rattle.std.specs.Prelude.{◌≡◌, ℕ, IfOk};
ghost use Rattle.std.specs.Option.{option_map};
ghost use Rattle.dwz_graph.specs.Files.{docs_of};
ghost use Rattle.dwz_graph_view.specs.AttrViews.{attr_at};
ghost use Rattle.dwz_graph_view.specs.ValueViews.{attr_in, attr_shown, value_of_attr, value_shown};

use crate::attr_forms::{attr_form, find_attr};
use crate::entry_views::number_at;
use crate::setting::setting_of;
use crate::value_views::ValueView;
use crate::values::value_view;
use dwz_graph::Graph;
use dwz_model::{NoMemory, Place};
use std::alloc::Global;

/// An attribute (DWARF 5, 2.2).
#[derive(Debug, Drop)]
pub struct AttrView<'a> {
    /// As `DW_AT_name` is 0x03.
    pub name: u16,
    /// As `DW_FORM_strp` is 0x0e.
    pub form: u16,
    /// The number that the form stores: an offset, an index or a constant; 0 where it stores bytes.
    pub raw: i128,
    pub value: ValueView<'a>,
}

// What the attribute with a number says, of the entry that begins at a place.
fn value_at<'a>(
    alloc: Global,
    graph: &Graph<'a>,
    place: Place,
    index: u32,
) -> Result<Option<ValueView<'a>>, NoMemory>
    ensures { IfOk result (λ o. option_map value_shown o
        ≡ option_map (value_of_attr place.file) (attr_at (docs_of graph.now.given) place index)) }
{
    let Some(number) = number_at(graph, place) else {
        return Ok(None);
    };
    let file = &graph.files()[place.file as usize];
    let Some(k) = find_attr(&file.units, number, index) else {
        return Ok(None);
    };
    let attr = file.units.attr(number, k);
    value_view(&setting_of(alloc, place.file, file, number), &attr)
}

/// The attribute with a number, from 0, of the entry that begins at a place, with its value. None exactly where there is none.
/// `DW_AT_sibling` is no attribute of a document (7.5.4). Paths of files, and pieces of expressions, take memory.
pub fn attr<'a>(
    alloc: Global,
    graph: &Graph<'a>,
    place: Place,
    index: u32,
) -> Result<Option<AttrView<'a>>, NoMemory>
    ensures { IfOk result (λ o. option_map attr_shown o
        ≡ option_map (attr_in place.file) (attr_at (docs_of graph.now.given) place index)) }
{
    let Some(form) = attr_form(graph, place, index) else {
        return Ok(None);
    };
    let Some(value) = value_at(alloc, graph, place, index)? else {
        return Ok(None);
    };
    Ok(Some(AttrView {
        name: form.name,
        form: form.form,
        raw: form.raw,
        value,
    }))
}
