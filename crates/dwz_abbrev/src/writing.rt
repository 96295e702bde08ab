//! Tables that are written.
//!
//! Declarations are sorted only where their codes don't ascend, and only then memory is taken besides that of `out`.

ghost use Rattle.std.specs.Prelude.{◌≡◌, ◌≢◌, ◌++◌, ◌∷◌, [], AllPairs, IfOk, OnErr, OnOk, length, take, vec_len};
ghost use Rattle.std.specs.Bool.{OnTrue};
ghost use Rattle.std.specs.BTreeMap.{values};
ghost use Rattle.dwz_def_reading.specs.Abbrevs.{SpellsTable, by_code, declaration_bytes, pair_bytes, pairs_bytes, table_bytes};
ghost use Rattle.dwz_abbrev.specs.Views.{decl_view, lent_views, views};
ghost use Rattle.dwz_abbrev.specs.Written.{Begins, Differ};

use crate::decl::Decl;
use crate::table::Table;
use dwz_bytes::{put_sleb, put_uleb};
use dwz_codes::DW_FORM_IMPLICIT_CONST;
use dwz_model::{NoMemory, Pair};
use std::alloc::Global;
use std::collections::BTreeMap;

// Appends a pair. After an error `out` still begins with what it was.
fn put_pair(out: &mut Vec<u8>, pair: &Pair) -> Result<(), NoMemory>
    ensures ok { OnOk result (out.new.items ≡ out.old.items ++ pair_bytes pair.now) }
    ensures begins { Begins out.old.items out.new.items }
{
    put_uleb(out, pair.name as u64)?;
    put_uleb(out, pair.form)?;
    if pair.form == DW_FORM_IMPLICIT_CONST {
        put_sleb(out, pair.constant)?;
    }
    Ok(())
}

// Appends pairs and their end. After an error `out` still begins with what it was.
fn put_pairs(out: &mut Vec<u8>, pairs: &[Pair]) -> Result<(), NoMemory>
    ensures ok { OnOk result (out.new.items ≡ out.old.items ++ pairs_bytes pairs.now) }
    ensures begins { Begins out.old.items out.new.items }
{
    for pair in pairs {
        put_pair(out, pair)?;
    }
    out.extend_from_slice(&[0, 0])
}

// Appends a declaration. After an error `out` still begins with what it was.
fn put_decl(out: &mut Vec<u8>, decl: &Decl) -> Result<(), NoMemory>
    ensures ok { OnOk result (out.new.items ≡ out.old.items ++ declaration_bytes (decl_view decl.now)) }
    ensures begins { Begins out.old.items out.new.items }
{
    put_uleb(out, decl.code)?;
    put_uleb(out, decl.tag as u64)?;
    out.push(if decl.children { 1 } else { 0 })?;
    put_pairs(out, decl.pairs.as_slice())
}

// Appends the end of a table. After an error `out` is as before.
fn put_end(out: &mut Vec<u8>) -> Result<(), NoMemory>
    ensures ok { OnOk result (out.new.items ≡ out.old.items ++ 0 ∷ []) }
    ensures err { OnErr result (out.new.items ≡ out.old.items) }
{
    out.push(0)?;
    Ok(())
}

// Appends declarations as they stand, and the end of a table. After an error `out` still begins with what it was.
fn put_decls(out: &mut Vec<u8>, decls: &[Decl]) -> Result<(), NoMemory>
    ensures ok { OnOk result (out.new.items ≡ out.old.items ++ table_bytes (views decls.now)) }
    ensures begins { Begins out.old.items out.new.items }
{
    for decl in decls {
        put_decl(out, decl)?;
    }
    put_end(out)
}

// The declarations by their codes.
fn sort_decls<'a>(alloc: Global, decls: &'a [Decl]) -> Result<BTreeMap<u64, &'a Decl>, NoMemory>
    requires { AllPairs Differ (views decls.now) }
    ensures { IfOk result (λ order. lent_views (values order) ≡ by_code (views decls.now)) }
{
    let mut order = BTreeMap::new(alloc);
    for place in (0..decls.len()).rev() {
        let decl = &decls[place];
        order.insert(decl.code, decl)?;
    }
    Ok(order)
}

// Appends declarations by ascending code, and the end of a table. After an error `out` still begins with what it was.
fn put_sorted(out: &mut Vec<u8>, decls: &[Decl]) -> Result<(), NoMemory>
    requires { AllPairs Differ (views decls.now) }
    ensures ok { OnOk result (out.new.items ≡ out.old.items ++ table_bytes (by_code (views decls.now))) }
    ensures begins { Begins out.old.items out.new.items }
{
    let alloc = *out.allocator();
    let order = sort_decls(alloc, decls)?;
    for decl in order.values() {
        put_decl(out, decl)?;
    }
    put_end(out)
}

// Whether each code is above the one before it.
fn ascends(decls: &[Decl]) -> bool
    ensures { OnTrue result (by_code (views decls.now) ≡ views decls.now) }
{
    for place in 1..decls.len() {
        if decls[place].code <= decls[place - 1].code {
            return false;
        }
    }
    true
}

// Appends a table by ascending code. After an error `out` still begins with what it was.
fn put_table(out: &mut Vec<u8>, decls: &[Decl]) -> Result<(), NoMemory>
    requires { AllPairs Differ (views decls.now) }
    ensures ok { OnOk result (out.new.items ≡ out.old.items ++ table_bytes (by_code (views decls.now))) }
    ensures begins { Begins out.old.items out.new.items }
{
    if ascends(decls) {
        put_decls(out, decls)
    } else {
        put_sorted(out, decls)
    }
}

impl Table {
    /// Appends the table's bytes: the declarations by ascending code, each number in its shortest spelling, and a zero byte
    /// (DWARF 5, 7.5.3). They spell the table. After NoMemory `out` is as before.
    pub fn write(&self, out: &mut Vec<u8>) -> Result<(), NoMemory>
        ensures ok { OnOk result (out.new.items ≡ out.old.items ++ table_bytes (by_code self.now)) }
        ensures err { OnErr result (out.new.items ≡ out.old.items) }
        ensures spelled { SpellsTable (table_bytes (by_code self.now)) (by_code self.now) }
    {
        let len = out.len();
        let written = put_table(out, self.rows.as_slice());
        if written.is_err() {
            out.truncate(len);
        }
        written
    }
}
