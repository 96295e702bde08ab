//! What options have to meet beside the rules of single words.
//!
//! With `clap`'s `required` and `conflicts_with` its contract doesn't say exactly where words fail: so which options may stand together,
//! how many FILEs there are, and what an OFFSET is, is tested here.

ghost use Rattle.std.specs.Prelude.{◌≡◌, ◌↔◌, IsTrue, true};
ghost use Rattle.std.specs.List.{list_all};
ghost use Rattle.std.specs.Option.{option_map_or};
ghost use Rattle.dwz_words.specs.Conditions.{FitTogether, are_distinct, are_other, are_places, has_batch_apart, has_common_apart};
ghost use Rattle.dwz_words.specs.Conditions.{has_distinct_files, has_file_count, has_file_names};
ghost use Rattle.dwz_words.specs.Conditions.{has_name_only_with_common, has_offsets, has_one_task};
ghost use Rattle.dwz_words.specs.Conditions.{has_out_only_for_one, has_out_with_expand, has_sup_apart};
ghost use Rattle.dwz_words.specs.Conditions.{has_reuse_apart, has_reuse_apart_from_out, may_have_out};
ghost use Rattle.dwz_words.specs.Conditions.{has_sup_apart_from_out, has_sup_only_with_check_or_expand};
ghost use Rattle.dwz_words.specs.Conditions.{is_among, is_apart, is_file_name, is_offset};
ghost use Rattle.dwz_words.specs.Conditions.{is_offset_digit, task_count};

use crate::options::Options;
use dwz_model::Blob;

const MOST_FILES: usize = 256;

/// Of `0x` and the digits behind it, in bytes.
const MOST_OFFSET_BYTES: usize = 10;

/// How many tasks are asked for.
fn task_count(options: &Options) -> usize
    ensures { result ≡ task_count options.now }
{
    let tasks = [
        options.common.is_some(),
        options.reuse.is_some(),
        options.batch.is_some(),
        options.explain,
        options.check,
        options.expand,
        options.demo.is_some(),
    ];
    tasks.iter().filter(|is| **is).count()
}

fn has_one_task(options: &Options) -> bool
    ensures { result ≡ has_one_task options.now }
{
    task_count(options) <= 1
}

fn has_file_count(options: &Options) -> bool
    ensures { result ≡ has_file_count options.now }
{
    let count = options.files.len();
    if options.demo.is_some() {
        count == 0
    } else if options.explain {
        count == 4
    } else if options.check {
        count == 2
    } else if options.expand {
        count == 1
    } else {
        count > 0 && count <= MOST_FILES
    }
}

fn has_name_only_with_common(options: &Options) -> bool
    ensures { result ≡ has_name_only_with_common options.now }
{
    options.name.is_none()
        || options.common.is_some()
        || options.reuse.is_some()
        || options.batch.is_some()
}

fn may_have_out(options: &Options) -> bool
    ensures { result ≡ may_have_out options.now }
{
    task_count(options) == 0 || options.reuse.is_some() || options.expand
}

fn has_out_only_for_one(options: &Options) -> bool
    ensures { result ≡ has_out_only_for_one options.now }
{
    options.out.is_none() || options.files.len() == 1 && may_have_out(options)
}

fn has_out_with_expand(options: &Options) -> bool
    ensures { result ≡ has_out_with_expand options.now }
{
    !options.expand || options.out.is_some()
}

fn has_sup_only_with_check_or_expand(options: &Options) -> bool
    ensures { result ≡ has_sup_only_with_check_or_expand options.now }
{
    options.sup.is_none() || options.check || options.expand
}

fn is_among(words: &[Blob], word: &[u8]) -> bool
    ensures { result ≡ is_among words.now word.now }
{
    words.iter().any(|other| other.as_slice() == word)
}

/// Each word is compared with those after it: there are 256 of them at most.
fn are_distinct(words: &[Blob]) -> bool
    ensures { result ≡ are_distinct words.now }
{
    match words {
        [] => true,
        [word, rest @ ..] => !is_among(rest, word.as_slice()) && are_distinct(rest),
    }
}

fn has_distinct_files(options: &Options) -> bool
    ensures { result ≡ has_distinct_files options.now }
{
    options.explain || are_distinct(options.files.as_slice())
}

fn is_apart(files: &[Blob], common: &Option<Blob>) -> bool
    ensures { result ≡ is_apart files.now common.now }
{
    match common {
        Some(common) => !is_among(files, common.as_slice()),
        None => true,
    }
}

fn has_common_apart(options: &Options) -> bool
    ensures { result ≡ has_common_apart options.now }
{
    is_apart(options.files.as_slice(), &options.common)
}

fn has_sup_apart(options: &Options) -> bool
    ensures { result ≡ has_sup_apart options.now }
{
    is_apart(options.files.as_slice(), &options.sup)
}

fn has_reuse_apart(options: &Options) -> bool
    ensures { result ≡ has_reuse_apart options.now }
{
    is_apart(options.files.as_slice(), &options.reuse)
}

fn has_batch_apart(options: &Options) -> bool
    ensures { result ≡ has_batch_apart options.now }
{
    is_apart(options.files.as_slice(), &options.batch)
}

fn are_other(one: &Option<Blob>, two: &Option<Blob>) -> bool
    ensures { result ≡ are_other one.now two.now }
{
    match (one, two) {
        (Some(one), Some(two)) => one.as_slice() != two.as_slice(),
        _ => true,
    }
}

fn has_sup_apart_from_out(options: &Options) -> bool
    ensures { result ≡ has_sup_apart_from_out options.now }
{
    are_other(&options.sup, &options.out)
}

fn has_reuse_apart_from_out(options: &Options) -> bool
    ensures { result ≡ has_reuse_apart_from_out options.now }
{
    are_other(&options.reuse, &options.out)
}

fn is_file_name(word: &Blob) -> bool
    ensures { result ≡ is_file_name word.now }
{
    !word.is_empty() && !word.as_slice().contains(&0)
}

fn are_file_names(words: &[Blob]) -> bool
    ensures { result ≡ list_all is_file_name words.now }
{
    words.iter().all(|word| is_file_name(word))
}

fn is_file_name_or_none(word: &Option<Blob>) -> bool
    ensures { result ≡ option_map_or is_file_name word.now true }
{
    match word {
        Some(word) => is_file_name(word),
        None => true,
    }
}

fn has_file_names(options: &Options) -> bool
    ensures { result ≡ has_file_names options.now }
{
    are_file_names(options.files.as_slice())
        && is_file_name_or_none(&options.common)
        && is_file_name_or_none(&options.name)
        && is_file_name_or_none(&options.out)
        && is_file_name_or_none(&options.reuse)
        && is_file_name_or_none(&options.batch)
        && is_file_name_or_none(&options.sup)
}

fn is_offset_digit(byte: u8) -> bool
    ensures { result ≡ is_offset_digit byte }
{
    byte.is_ascii_hexdigit() && !byte.is_ascii_uppercase()
}

fn are_offset_digits(digits: &[u8]) -> bool
    ensures { result ≡ list_all is_offset_digit digits.now }
{
    digits.iter().all(|digit| is_offset_digit(*digit))
}

/// Whether the word is `0x` and 1 to 8 hexadecimal digits in lower case.
pub(crate) fn is_offset(word: &[u8]) -> bool
    ensures { result ≡ is_offset word.now }
{
    word.starts_with(b"0x")
        && word.len() > 2
        && word.len() <= MOST_OFFSET_BYTES
        && are_offset_digits(&word[2..])
}

fn are_places(words: &[Blob]) -> bool
    ensures { result ≡ are_places words.now }
{
    match words {
        [_, first_offset, _, second_offset] => {
            is_offset(first_offset.as_slice()) && is_offset(second_offset.as_slice())
        }
        _ => false,
    }
}

fn has_offsets(options: &Options) -> bool
    ensures { result ≡ has_offsets options.now }
{
    !options.explain || are_places(options.files.as_slice())
}

/// Whether options meet all of the conditions.
pub(crate) fn fit_together(options: &Options) -> bool
    ensures { IsTrue result ↔ FitTogether options.now }
{
    has_one_task(options)
        && has_file_count(options)
        && has_name_only_with_common(options)
        && has_out_only_for_one(options)
        && has_out_with_expand(options)
        && has_sup_only_with_check_or_expand(options)
        && has_distinct_files(options)
        && has_common_apart(options)
        && has_reuse_apart(options)
        && has_reuse_apart_from_out(options)
        && has_batch_apart(options)
        && has_sup_apart(options)
        && has_sup_apart_from_out(options)
        && has_file_names(options)
        && has_offsets(options)
}
