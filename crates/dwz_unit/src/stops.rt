//! Stops: the values of entries that are looked at, once a declaration.

ghost use Rattle.std.specs.Prelude.{◌≡◌, ◌++◌, IfOk, None, OnOk, Some, if◌then◌else◌, map};
ghost use Rattle.dwz_unit.specs.Stops as Specs;
ghost use Rattle.dwz_unit.specs.Stops.{is_passed, stops_of};

use crate::flat_rows::{FlatRows, PairRows, StopRows};
use dwz_bytes::Cursor;
use dwz_codes::{Class, DW_AT_SIBLING, class_of, names_file};
use dwz_forms::fixed_size;
use dwz_model::{NoMemory, Pair};
use std::alloc::Global;

// How many stops there is room for at once, for each declaration: most have no more.
const STOPS: usize = 4;

/// A value of an entry that is looked at.
#[derive(Clone, Copy, Debug, PartialEq, Eq)]
pub struct Stop {
    /// How many bytes stand between it and the stop before it, or the entry's first value.
    pub skip: usize,
    /// Its number among the entry's values, counted from 0.
    pub number: usize,
}

/// The stops of an entry: the names and forms of all its values, and a cursor at the first of them.
pub struct Stops<'u, 'a> {
    pub stops: &'u [Stop],
    pub pairs: &'u [Pair],
    pub cursor: Cursor<'a>,
}

// Whether a value of that class, of an attribute of that name, names nothing that stands elsewhere.
fn is_plain(class: Class, name: u16) -> bool
    ensures { result ≡ Specs.is_plain class name }
{
    match class {
        Class::Address => true,
        Class::Flag => true,
        Class::Signature => true,
        Class::Index => true,
        Class::Constant => !names_file(name),
        _ => false,
    }
}

// How many bytes a value has that is passed over. None where it is a stop.
fn passed_size(pair: &Pair) -> Option<usize>
    ensures { result ≡ (if is_passed pair.now then Some (Specs.passed_size pair.now) else None) }
{
    if pair.name == DW_AT_SIBLING || is_plain(class_of(pair.form), pair.name) {
        return fixed_size(pair.form);
    }
    None
}

// Appends the stops of an entry with these names and forms.
fn put_stops(pairs: &[Pair], stops: &mut Vec<Stop>) -> Result<(), NoMemory>
    ensures { OnOk result (stops.new.items ≡ stops.old.items ++ stops_of pairs.now) }
{
    let mut skip = 0;
    for (number, pair) in pairs.iter().enumerate() {
        if let Some(size) = passed_size(pair) {
            skip += size;
        } else {
            stops.push(Stop { skip, number })?;
            skip = 0;
        }
    }
    Ok(())
}

/// The stops of each of these declarations.
pub(crate) fn stop_rows(alloc: Global, decls: &PairRows) -> Result<StopRows, NoMemory>
    ensures { IfOk result (λ stops. stops ≡ map stops_of decls.now) }
{
    let count = decls.len();
    let mut rows = FlatRows::with_capacity(alloc, count, count.saturating_mul(STOPS))?;
    let mut stops = Vec::new(alloc);
    for number in 0..count {
        stops.clear();
        put_stops(decls.get(number), &mut stops)?;
        rows.push(stops.as_slice())?;
    }
    Ok(rows)
}
