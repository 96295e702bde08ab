//! Numbers and flags.

ghost use Rattle.std.specs.Prelude.{◌≡◌, ℕ, pos, ◌≤ℤ◌, List, [], ◌∷◌, ◌*◌, ◌+◌, ◌<◌, ◌≤◌, ◌^◌, ◌++◌, None, OnOk};
ghost use Rattle.dwz_def_reading.specs.Documents.{Flag, Num};
ghost use Rattle.dwz_label.specs.Labels.{number};
ghost use Rattle.dwz_label_marks.specs.Marks.{direct, plain_mark};
ghost use Rattle.dwz_label_marks.specs.Told.{Adds};
ghost use Rattle.dwz_label_words.specs.Known.{StaysNamed};

use crate::FileNames;
use dwz_label::put_num;
use dwz_label_marks::{put_named, put_plainly};
use dwz_model::NoMemory;

// Below this the mark of a number has 63 bits.
const SMALL: u128 = 1 << 62;

// What is added to a number that is a value: the marks below stand for flags, entries and no file.
const NUMBER: u128 = 5;

// Appends the mark of a number that needs two groups or more.
#[inline(never)]
fn put_large(out: &mut Vec<u8>, value: u128) -> Result<(), NoMemory>
    requires { 64 ≤ value }
    ensures { OnOk result (out.new.items ≡ out.old.items ++ number (2 * value)) }
{
    out.push((value % 64) as u8 * 2 + 128)?;
    dwz_label::put_number(out, value / 64)
}

// Appends the mark of a number.
#[inline(always)]
fn put_direct(out: &mut Vec<u8>, value: u128) -> Result<(), NoMemory>
    ensures { OnOk result (out.new.items ≡ out.old.items ++ number (2 * value)) }
{
    if value < SMALL {
        return put_plainly(out, value as u64);
    }
    put_large(out, value)
}

// Appends the mark of a number that has a name.
#[inline(never)]
fn put_named_num(
    names: &mut FileNames,
    out: &mut Vec<u8>,
    made: &mut Vec<u8>,
    width: u8,
    value: i128,
) -> Result<(), NoMemory>
    ensures stays { OnOk result (StaysNamed names.old names.new) }
    ensures told { OnOk result (direct (Num width value) ≡ None
        → Adds names.new.names (plain_mark (Num width value) ∷ []) out.old.items out.new.items) }
{
    made.clear();
    put_num(made, width, value)?;
    let name = names.other(made.as_slice())?;
    put_named(out, name)
}

// A number that isn't negative, as one without a sign.
#[inline(always)]
fn unsigned(value: i128) -> u128
    requires { pos 0 ≤ℤ value }
    ensures value { value ≡ pos result }
    ensures small { result < 2 ^ 127 }
{
    value as u128
}

/// Appends the mark of a number, of which so many bytes are kept.
#[inline(always)]
pub(crate) fn put_num_mark(
    names: &mut FileNames,
    out: &mut Vec<u8>,
    made: &mut Vec<u8>,
    width: u8,
    value: i128,
) -> Result<(), NoMemory>
    ensures stays { OnOk result (StaysNamed names.old names.new) }
    ensures told { OnOk result (Adds names.new.names (plain_mark (Num width value) ∷ []) out.old.items out.new.items) }
{
    if width != 0 {
        return put_named_num(names, out, made, width, value);
    }
    if value < 0 {
        return put_named_num(names, out, made, width, value);
    }
    put_direct(out, unsigned(value) + NUMBER)
}

/// Appends the mark of a flag.
#[inline(always)]
pub(crate) fn put_flag_mark(out: &mut Vec<u8>, flag: bool) -> Result<(), NoMemory>
    ensures { (names : List (List ℕ)) → OnOk result (Adds names (plain_mark (Flag flag) ∷ []) out.old.items out.new.items) }
{
    if flag {
        return put_plainly(out, 1);
    }
    put_plainly(out, 0)
}
