//! The texts, each a line or some lines.

ghost use Rattle.std.specs.Prelude.{◌≡◌, ◌≤◌, IfOk};
ghost use Rattle.dwz_report.specs.Texts;

use crate::reasons::{reason_words, section_name};
use crate::summary::Summary;
use dwz_model::{Blob, NoMemory, Reason, Refusal};
use dwz_text::{decimal, hexadecimal, line};
use std::alloc::Global;

// The number behind the words of a reason.
fn reason_number(alloc: Global, reason: Reason) -> Result<Vec<u8>, NoMemory>
    ensures { IfOk result (λ v. v.items ≡ Texts.reason_number reason) }
{
    match reason {
        Reason::UnsupportedForm { form } => hexadecimal(alloc, form),
        Reason::UnsupportedOp { op } => hexadecimal(alloc, u64::from(op)),
        _ => Ok(Vec::new(alloc)),
    }
}

/// Why the file of this name is refused: the line `dwz: NAME: SECTION+0xAT: WORDS`.
pub fn refusal_text(alloc: Global, name: &[u8], refusal: &Refusal) -> Result<Blob, NoMemory>
    requires { refusal.now.section ≤ 9 }
    ensures { IfOk result (λ text. text ≡ Texts.refusal_text name.now refusal.now) }
{
    let at = hexadecimal(alloc, refusal.at)?;
    let number = reason_number(alloc, refusal.reason)?;
    let section = section_name(refusal.section);
    let words = reason_words(refusal.reason);
    Ok(Blob::new(refusal_line(alloc, name, section, &at, words, &number)?))
}

fn refusal_line<'a>(
    alloc: Global,
    name: &'a [u8],
    section: &'a [u8],
    at: &'a [u8],
    words: &'a [u8],
    number: &'a [u8],
) -> Result<Vec<u8>, NoMemory>
    ensures { IfOk result (λ v. v.items ≡ Texts.refusal_line name.now section.now at.now words.now number.now) }
{
    line(
        alloc,
        &[
            b"dwz: ".as_slice(),
            name,
            b": ",
            section,
            b"+0x",
            at,
            b": ",
            words,
            number,
        ],
    )
}

/// The file of this name wasn't read: the line `dwz: cannot read NAME`.
pub fn read_text(alloc: Global, name: &[u8]) -> Result<Blob, NoMemory>
    ensures { IfOk result (λ text. text ≡ Texts.read_text name.now) }
{
    Ok(Blob::new(line(alloc, &[b"dwz: cannot read ".as_slice(), name])?))
}

/// The file of this name wasn't written: the line `dwz: cannot write NAME`.
pub fn write_text(alloc: Global, name: &[u8]) -> Result<Blob, NoMemory>
    ensures { IfOk result (λ text. text ≡ Texts.write_text name.now) }
{
    Ok(Blob::new(line(alloc, &[b"dwz: cannot write ".as_slice(), name])?))
}

/// Memory ran out. Takes no memory.
pub fn memory_text() -> &'static [u8]
    ensures { result.now ≡ Texts.memory_text }
{
    b"dwz: out of memory\n"
}

/// The words aren't lawful: the line that says which are.
pub fn usage_text() -> &'static [u8]
    ensures { result.now ≡ Texts.usage_text }
{
    b"usage: dwz [-q] [--dwarf-5] [-m COMMON [-M NAME]] [-o OUT] [-j N] FILE... | --demo N | --reuse COMMON [-M NAME] [-o OUT] [-j N] FILE... | --batch COMMON [-M NAME] [-j N] FILE... | --explain FILE OFFSET FILE OFFSET | --expand FILE [--sup COMMON] -o OUT | --check OLD NEW [--sup COMMON]\n"
}

fn common_text(alloc: Global, common: &Option<(Blob, u64)>) -> Result<Vec<u8>, NoMemory>
    ensures { IfOk result (λ v. v.items ≡ Texts.common_file_text common.now) }
{
    match common {
        None => Ok(Vec::new(alloc)),
        Some((name, new)) => {
            let new = decimal(alloc, *new)?;
            line(alloc, &[name.as_slice(), b": ", &new, b" bytes"])
        }
    }
}

fn file_text(alloc: Global, file: &(Blob, u64, Option<u64>)) -> Result<Vec<u8>, NoMemory>
    ensures { IfOk result (λ v. v.items ≡ Texts.file_text file.now) }
{
    let (name, old, new) = file;
    match new {
        None => line(alloc, &[name.as_slice(), b": nothing moves"]),
        Some(new) => {
            let old = decimal(alloc, *old)?;
            let new = decimal(alloc, *new)?;
            line(
                alloc,
                &[name.as_slice(), b": ", &old, b" -> ", &new, b" bytes"],
            )
        }
    }
}

/// What was done: a line for the common file, where it was put, and one for each file. No line where there is neither.
pub fn summary_text(alloc: Global, lines: &Summary) -> Result<Blob, NoMemory>
    ensures { IfOk result (λ text. text ≡ Texts.summary_text lines.now) }
{
    let mut text = common_text(alloc, &lines.common)?;
    for file in lines.files.as_slice() {
        let line = file_text(alloc, file)?;
        text.extend_from_slice(&line)?;
    }
    Ok(Blob::new(text))
}

/// What `--demo n` did: the bytes of the two files before, those of all three files after, and the partial units of all
/// files. Each of the two files has n units.
pub fn demo_text(
    alloc: Global,
    n: u32,
    before: u64,
    after: u64,
    partials: u32,
) -> Result<Blob, NoMemory>
    ensures { IfOk result (λ text. text ≡ Texts.demo_text n before after partials) }
{
    let units = decimal(alloc, 2 * u64::from(n))?;
    let n = decimal(alloc, u64::from(n))?;
    let before = decimal(alloc, before)?;
    let after = decimal(alloc, after)?;
    let partials = decimal(alloc, u64::from(partials))?;
    let text = line(
        alloc,
        &[
            b"demo ".as_slice(),
            &n,
            b": ",
            &units,
            b" units, ",
            &before,
            b" -> ",
            &after,
            b" bytes, ",
            &partials,
            b" partial units",
        ],
    )?;
    Ok(Blob::new(text))
}
