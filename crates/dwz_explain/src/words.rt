//! Names and places in words.

ghost use Rattle.std.specs.Prelude.{◌≡◌, ◌++◌, codes, IfOk};
ghost use Rattle.std.specs.Option.{option_map};
ghost use Rattle.dwz_codes.specs.Rows.{view_of};
ghost use Rattle.dwz_def_explain.specs.Texts;

use dwz_codes::{Row, attribute_names, tag_names};
use dwz_model::NoMemory;
use std::alloc::Global;

// The code, in hexadecimal.
fn code_text(alloc: Global, code: u16) -> Result<Vec<u8>, NoMemory>
    ensures { IfOk result (λ text. text.items ≡ Texts.code_text code) }
{
    Ok(format!(in alloc; "0x{code:x}")?.into_bytes())
}

// The name that a table has for the code, or else the code.
fn name_or_code(alloc: Global, row: Option<Row>, code: u16) -> Result<Vec<u8>, NoMemory>
    ensures { IfOk result (λ text. text.items ≡ Texts.name_or_code (option_map view_of row) code) }
{
    match row {
        None => code_text(alloc, code),
        Some(row) => row.name.as_bytes().to_vec(alloc),
    }
}

// The name of a tag, or its code (DWARF 5, 7.5.3).
fn tag_text(alloc: Global, tag: u16) -> Result<Vec<u8>, NoMemory>
    ensures { IfOk result (λ text. text.items ≡ Texts.tag_text tag) }
{
    name_or_code(alloc, tag_names().find(u64::from(tag)), tag)
}

// The name of an attribute, or its code (7.5.4).
fn attribute_text(alloc: Global, name: u16) -> Result<Vec<u8>, NoMemory>
    ensures { IfOk result (λ text. text.items ≡ Texts.attribute_text name) }
{
    name_or_code(alloc, attribute_names().find(u64::from(name)), name)
}

/// Two places, in bytes from the first of `.debug_info` each.
pub(crate) fn places_text(alloc: Global, first: u32, second: u32) -> Result<Vec<u8>, NoMemory>
    ensures { IfOk result (λ text. text.items ≡ Texts.code_text first ++ codes " " ++ Texts.code_text second) }
{
    Ok(format!(in alloc; "0x{first:x} 0x{second:x}")?.into_bytes())
}

/// That the tags differ, and both of them.
pub(crate) fn tag_words(alloc: Global, first: u16, second: u16) -> Result<Vec<u8>, NoMemory>
    ensures { IfOk result (λ text. text.items ≡ codes "tag " ++ Texts.tag_text first ++ codes " " ++ Texts.tag_text second) }
{
    let mut text = b"tag ".to_vec(alloc)?;
    let first = tag_text(alloc, first)?;
    text.extend_from_slice(&first)?;
    text.push(b' ')?;
    let second = tag_text(alloc, second)?;
    text.extend_from_slice(&second)?;
    Ok(text)
}

/// That an attribute differs, and its name.
pub(crate) fn attribute_words(alloc: Global, name: u16) -> Result<Vec<u8>, NoMemory>
    ensures { IfOk result (λ text. text.items ≡ codes "attribute " ++ Texts.attribute_text name) }
{
    let mut text = b"attribute ".to_vec(alloc)?;
    let name = attribute_text(alloc, name)?;
    text.extend_from_slice(&name)?;
    Ok(text)
}
