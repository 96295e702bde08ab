//! Names that are made.

ghost use Rattle.std.specs.Prelude.{◌≡◌, ◌++◌, ◌∷◌, [], Some, IfOk, OnOk};
ghost use Rattle.dwz_def_reading.specs.Documents.{File, Text};
ghost use Rattle.dwz_def_reading.specs.TextRows.{text_number};
ghost use Rattle.dwz_label.specs.Labels.{plain_label};
ghost use Rattle.dwz_label_marks.specs.Told.{Keeps};
ghost use Rattle.dwz_label_words.specs.Shapes.{pair_names, pairs_shape};

use dwz_codes::DW_AT_SIBLING;
use dwz_label::{put_file, put_text};
use dwz_label_entries::count_of;
use dwz_label_marks::{Names, put_number};
use dwz_model::{NoMemory, Pair};

/// The number of the name of a text, which is made in `made`.
#[inline(never)]
pub(crate) fn name_text(names: &mut Names, made: &mut Vec<u8>, text: &[u8]) -> Result<u32, NoMemory>
    ensures kept { Keeps names.old names.new }
    ensures number { IfOk result (λ n. text_number names.new (plain_label (Text text.now)) ≡ Some n) }
{
    made.clear();
    put_text(made, text)?;
    let number = names.number(made.as_slice())?;
    Ok(number)
}

/// The number of the name of a path.
#[inline(never)]
pub(crate) fn name_path(names: &mut Names, made: &mut Vec<u8>, path: &[u8]) -> Result<u32, NoMemory>
    ensures kept { Keeps names.old names.new }
    ensures number { IfOk result (λ n. text_number names.new (plain_label (File (Some path.now))) ≡ Some n) }
{
    made.clear();
    put_file(made, path)?;
    let number = names.number(made.as_slice())?;
    Ok(number)
}

// Appends the name of an attribute, unless it is `DW_AT_sibling`.
fn put_name(out: &mut Vec<u8>, pair: &Pair) -> Result<(), NoMemory>
    ensures { OnOk result (out.new.items ≡ out.old.items ++ pair_names (pair.now ∷ [])) }
{
    if pair.name == DW_AT_SIBLING {
        return Ok(());
    }
    put_number(out, pair.name as u64)
}

// Appends the names of attributes.
fn put_names(out: &mut Vec<u8>, pairs: &[Pair]) -> Result<(), NoMemory>
    ensures { OnOk result (out.new.items ≡ out.old.items ++ pair_names pairs.now) }
{
    for pair in pairs {
        put_name(out, pair)?;
    }
    Ok(())
}

/// The number of the name of a tag with the names of attributes.
#[inline(never)]
pub(crate) fn name_shape(
    names: &mut Names,
    made: &mut Vec<u8>,
    tag: u16,
    pairs: &[Pair],
) -> Result<u32, NoMemory>
    ensures kept { Keeps names.old names.new }
    ensures number { IfOk result (λ n. text_number names.new (pairs_shape tag pairs.now) ≡ Some n) }
{
    made.clear();
    put_number(made, tag as u64)?;
    put_number(made, count_of(pairs) as u64)?;
    put_names(made, pairs)?;
    let number = names.number(made.as_slice())?;
    Ok(number)
}
