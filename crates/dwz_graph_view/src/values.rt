//! What a value says, by its class (DWARF 5, 7.5.5).

ghost use Rattle.std.specs.Prelude.{◌≡◌, ℕ, ◌<◌, ◌^◌, true, Ok, IfOk};
ghost use Rattle.dwz_def_reading.specs.Classes;
ghost use Rattle.dwz_def_reading.specs.Classes.{OfConstant, OfOffset};
ghost use Rattle.dwz_def_reading.specs.Documents.{Value, ref};
ghost use Rattle.dwz_def_reading.specs.Meanings.{MeaningContext, entries_for, has, leads_to};
ghost use Rattle.dwz_def_reading.specs.Meant.{as_class, meaning};
ghost use Rattle.dwz_def_reading.specs.Values.{HasSpelling};
ghost use Rattle.dwz_forms.specs.RawValues.{raw_view};
ghost use Rattle.dwz_label_entries.specs.Plain.{KnowsLine, is_simple};
ghost use Rattle.dwz_unit.specs.Rows.{attr_view};
ghost use Rattle.dwz_graph_view.specs.Settings.{KnowsSetting};
ghost use Rattle.dwz_graph_view.specs.ValueViews.{Shows};

use crate::numbers::narrow;
use crate::pieces::{expr_view, list_by_slot, list_view, place_of};
use crate::setting::Setting;
use crate::texts::{file_view, text_by_slot, text_view};
use crate::value_views::ValueView;
use dwz_codes::{Class, class_of, names_file, names_list};
use dwz_graph::offset_of;
use dwz_label_entries::{bytes_of, is_set, number_of, width_of};
use dwz_model::{Base, NoMemory};
use dwz_unit::RawAttr;

// What a value says whose class says what it is.
fn simple_view<'a>(
    setting: &Setting<'_, 'a>,
    class: Class,
    attr: &RawAttr<'a>,
) -> Option<ValueView<'a>>
    requires { HasSpelling attr.now.pair.form (raw_view attr.now.raw) }
    ensures { (s : MeaningContext ℕ) (v : Value ℕ) → is_simple class ≡ true → class ≡ Classes.class_of attr.now.pair.form
        → KnowsSetting setting.now s → as_class class s (attr_view attr.now) ≡ Ok v → Shows setting.now.file v result }
{
    let sections = setting.sections;
    let offset = offset_of(&attr.raw);
    match class {
        Class::Address => Some(ValueView::Addr(narrow(offset)?)),
        Class::Block => Some(ValueView::Bytes(bytes_of(&attr.raw))),
        Class::Flag => Some(ValueView::Flag(is_set(attr.pair.form, offset))),
        Class::Text => Some(ValueView::Text(bytes_of(&attr.raw))),
        Class::TextInStr => text_view(sections.strs.bytes, offset),
        Class::TextInLineStr => text_view(sections.line_strs.bytes, offset),
        Class::TextBySlot => text_by_slot(setting, offset),
        Class::Signature => Some(ValueView::Sig(narrow(offset)?)),
        Class::Index => Some(ValueView::Index(narrow(offset)?)),
        _ => None,
    }
}

// A number, which may be that of a file.
fn constant_view<'a>(
    setting: &Setting<'_, 'a>,
    attr: &RawAttr,
) -> Result<Option<ValueView<'a>>, NoMemory>
    ensures { (s : MeaningContext ℕ) (v : Value ℕ) → Classes.class_of attr.now.pair.form ≡ OfConstant
        → KnowsLine s (attr_view attr.now) setting.now.tables.now setting.now.line → as_class OfConstant s (attr_view attr.now) ≡ Ok v
        → IfOk result (λ o. Shows setting.now.file v o) }
{
    let value = number_of(&attr.raw);
    if names_file(attr.pair.name) {
        return file_view(setting, value);
    }
    let width = width_of(attr.pair.name, attr.pair.form, offset_of(&attr.raw));
    Ok(Some(ValueView::Num { width, value }))
}

// An offset, which may be that of a location list.
fn offset_view<'a>(
    setting: &Setting<'_, 'a>,
    attr: &RawAttr,
) -> Result<Option<ValueView<'a>>, NoMemory>
    requires { HasSpelling attr.now.pair.form (raw_view attr.now.raw) }
    ensures { (s : MeaningContext ℕ) (v : Value ℕ) → Classes.class_of attr.now.pair.form ≡ OfOffset → KnowsSetting setting.now s
        → as_class OfOffset s (attr_view attr.now) ≡ Ok v → IfOk result (λ o. Shows setting.now.file v o) }
{
    let offset = offset_of(&attr.raw);
    if names_list(attr.pair.name) {
        return list_view(setting, offset);
    }
    match narrow(offset) {
        None => Ok(None),
        Some(offset) => Ok(Some(ValueView::Sec(offset))),
    }
}

// The entry that a value names.
fn ref_view<'a>(setting: &Setting<'_, 'a>, base: Base, number: u128) -> Option<ValueView<'a>>
    requires { number < 2 ^ 127 }
    ensures { (s : MeaningContext ℕ) → KnowsSetting setting.now s → has (leads_to s base number) (entries_for s base) ≡ true
        → Shows setting.now.file (ref (s.around.place (leads_to s base number))) result }
{
    let place = place_of(setting, base, number)?;
    Some(ValueView::Ref(place))
}

/// What a value says; None where it means nothing, as no value of a file that was read does.
pub(crate) fn value_view<'a>(
    setting: &Setting<'_, 'a>,
    attr: &RawAttr<'a>,
) -> Result<Option<ValueView<'a>>, NoMemory>
    requires { HasSpelling attr.now.pair.form (raw_view attr.now.raw) }
    ensures { (s : MeaningContext ℕ) (v : Value ℕ) → KnowsSetting setting.now s
        → KnowsLine s (attr_view attr.now) setting.now.tables.now setting.now.line → meaning s (attr_view attr.now) ≡ Ok v
        → IfOk result (λ o. Shows setting.now.file v o) }
{
    let class = class_of(attr.pair.form);
    let offset = offset_of(&attr.raw);
    match class {
        Class::Constant => constant_view(setting, attr),
        Class::Offset => offset_view(setting, attr),
        Class::UnitEntry => Ok(ref_view(setting, Base::Unit, offset)),
        Class::InfoEntry => Ok(ref_view(setting, Base::Info, offset)),
        Class::Expression => expr_view(setting, bytes_of(&attr.raw), attr.end),
        Class::ListIndex => list_by_slot(setting, offset),
        _ => Ok(simple_view(setting, class, attr)),
    }
}
