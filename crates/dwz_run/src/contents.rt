//! The contents of a finished common file and of the files beside which it is read.
//!
//! They come in the order in which files are got: that of the common file first, where it is given. Behind one that is too long nothing
//! was got.

ghost use Rattle.std.specs.Prelude.{◌≡◌, [], get_or, map, if◌then◌else◌};
ghost use Rattle.std.specs.Option.{is_some, option_map};
ghost use Rattle.dwz_def_run.specs.Compares.{common_in};

use dwz_words::Options;

/// The content with that number, or nothing where it wasn't got.
pub(crate) fn content_at<'a>(contents: &'a [Vec<u8>], number: usize) -> &'a [u8]
    ensures { result.now ≡ get_or (map (λ c. c.items) contents.now) number [] }
{
    match contents.get(number) {
        Some(content) => content.as_slice(),
        None => &[],
    }
}

/// That of the common file, where it is given.
pub(crate) fn common_in<'a>(options: &Options, contents: &'a [Vec<u8>]) -> Option<&'a [u8]>
    ensures { option_map (λ c. c.now) result ≡ common_in options.now.sup (map (λ c. c.items) contents.now) }
{
    match &options.sup {
        None => None,
        Some(_) => Some(content_at(contents, 0)),
    }
}

/// How many contents come before those of the other files.
pub(crate) fn first_of(options: &Options) -> usize
    ensures { result ≡ (if is_some options.now.sup then 1 else 0) }
{
    if options.sup.is_some() { 1 } else { 0 }
}
