//! What differs between two entries, in words.

ghost use Rattle.std.specs.Prelude.{◌≡◌, IfOk, Option, slice_get};
ghost use Rattle.std.specs.Option.{option_map};
ghost use Rattle.dwz_def_explain.specs.Texts;
ghost use Rattle.dwz_def_explain.specs.What.{Subtree};
ghost use Rattle.dwz_def_reading.specs.Documents.{Attr};
ghost use Rattle.dwz_def_tops.specs.Spots.{EntryName};
ghost use Rattle.dwz_explain.specs.Reached.{HasEntry, Shows};
ghost use Rattle.dwz_graph.specs.Files.{docs_of};

use crate::asked::{Asked, Spot, units_at};
use crate::attribute_at::attribute_at;
use crate::lines::difference_line;
use crate::words::{attribute_words, tag_words};
use dwz_def_explain::What;
use dwz_model::NoMemory;
use dwz_unit::RawEntry;

/// The path to the entries that differ; that to the tops themselves, where these differ in language or in spaces.
pub(crate) fn path_of(what: &What) -> &[u32]
    ensures { result.now ≡ Texts.path_of_what what.now }
{
    match what {
        What::Language | What::Space => &[],
        What::Tag { path } | What::Attribute { path, .. } | What::Children { path } =>
            path.as_slice(),
    }
}

// The name of the first of two attributes that is there.
fn first_name(first: Option<u16>, second: Option<u16>) -> u16
    ensures { (a b : Option (Attr EntryName)) → first ≡ option_map (λ x. x.name) a → second ≡ option_map (λ x. x.name) b
        → result ≡ Texts.first_name a b }
{
    match (first, second) {
        (Some(name), _) => name,
        (None, Some(name)) => name,
        (None, None) => 0,
    }
}

// The name of the first of the attributes with a number of two entries that is there.
fn name_of_first(run: &Asked, first: Spot, second: Spot, index: u32) -> u16
    requires first { HasEntry run.now.files.now first }
    requires second { HasEntry run.now.files.now second }
    ensures { (x y : Subtree) → Shows run.now.graph.now.given run.now.files.now first x → Shows run.now.graph.now.given run.now.files.now second y
        → result ≡ Texts.first_name (slice_get x.node.attrs index) (slice_get y.node.attrs index) }
{
    let a = attribute_at(units_at(run, first.file), first.entry, index);
    let b = attribute_at(units_at(run, second.file), second.entry, index);
    first_name(a, b)
}

// The entry, as it is stored.
fn stored(run: &Asked, spot: Spot) -> RawEntry
    requires { HasEntry run.now.files.now spot }
    ensures tag { (x : Subtree) → Shows run.now.graph.now.given run.now.files.now spot x → x.node.tag ≡ result.tag }
    ensures place { (x : Subtree) → Shows run.now.graph.now.given run.now.files.now spot x
        → Texts.place_of_name (docs_of run.now.graph.now.given) x.node.at ≡ result.at }
{
    units_at(run, spot.file).entry(spot.entry)
}

// The words for what differs.
fn words_of(run: &Asked, what: &What, first: Spot, second: Spot) -> Result<Vec<u8>, NoMemory>
    requires first { HasEntry run.now.files.now first }
    requires second { HasEntry run.now.files.now second }
    ensures { (x y : Subtree) → Shows run.now.graph.now.given run.now.files.now first x → Shows run.now.graph.now.given run.now.files.now second y
        → IfOk result (λ text. text.items ≡ Texts.what_words what.now x.node y.node) }
{
    let alloc = run.alloc;
    match what {
        What::Language => b"language".to_vec(alloc),
        What::Space => b"namespace".to_vec(alloc),
        What::Children { .. } => b"children".to_vec(alloc),
        What::Tag { .. } => {
            let a = stored(run, first).tag;
            let b = stored(run, second).tag;
            tag_words(alloc, a, b)
        }
        What::Attribute { index, .. } => {
            let name = name_of_first(run, first, second, *index);
            attribute_words(alloc, name)
        }
    }
}

/// The line of two entries that differ, and of what differs.
pub(crate) fn what_line(
    run: &Asked,
    what: &What,
    first: Spot,
    second: Spot,
) -> Result<Vec<u8>, NoMemory>
    requires first { HasEntry run.now.files.now first }
    requires second { HasEntry run.now.files.now second }
    ensures { (x y : Subtree) → Shows run.now.graph.now.given run.now.files.now first x → Shows run.now.graph.now.given run.now.files.now second y
        → IfOk result (λ text. text.items ≡ Texts.what_line (docs_of run.now.graph.now.given) what.now x y) }
{
    let words = words_of(run, what, first, second)?;
    let a = stored(run, first).at;
    let b = stored(run, second).at;
    difference_line(run.alloc, a, b, &words)
}
