//! Declarations that are read, whose names and forms lie in one row.

ghost use Rattle.std.specs.Prelude.{◌≡◌, ◌<◌, ◌^◌, ◌++◌, ◌∷◌, List, [], All, IfOk, IfSome, None, OnErr, OnOk, drop, length, map, slice_get};
ghost use Rattle.std.specs.Option.{option_and_then};
ghost use Rattle.dwz_def_reading.specs.Abbrevs.{find_decl, is_some_decl};
ghost use Rattle.dwz_model.specs.declared.place.Pair.{Pair};
ghost use Rattle.dwz_abbrev.specs.Places.{Leads, codes_of, place_of};
ghost use Rattle.dwz_abbrev.specs.ReadViews.{IsInRow, read_codes, read_views};
ghost use Rattle.dwz_abbrev.specs.Views.{views};

use crate::codes::Codes;
use crate::decl::Decl;
use crate::read_decl::ReadDecl;
use crate::rows::Rows;
use dwz_model::{NoMemory, Pair, Pairs};
use std::alloc::Global;
use std::marker::Model;

/// Declarations with different codes. Clauses see them in their order.
#[derive(Drop)]
pub struct ReadRows {
    decls: Vec<ReadDecl>,
    codes: Codes,
}

impl Model for ReadRows {
    ghost use Rattle.std.specs.Prelude.{List};
    ghost use Rattle.dwz_abbrev.specs.declared.read_decl.ReadDecl.{ReadDecl};

    ghost Value = { List ReadDecl };

    ghost use Rattle.dwz_abbrev.specs.ReadPlaces.{AreLed};

    ghost view = { λ r. r.decls.items };

    ghost invariant = { λ r. AreLed r.codes r.decls.items };
}

impl ReadRows {
    // No declarations, and room for so many.
    pub(crate) fn with_capacity(alloc: Global, room: usize) -> Result<ReadRows, NoMemory>
        ensures { IfOk result (λ rows. rows ≡ []) }
    {
        Ok(ReadRows {
            decls: Vec::with_capacity(alloc, room)?,
            codes: Codes::new(alloc),
        })
    }

    // Whether one of them has a code.
    pub(crate) fn has(&self, code: u64) -> bool
        ensures { (pairs : List Pair) → result ≡ is_some_decl (find_decl (read_views pairs self.now) code) }
    {
        self.codes.place(code).is_some()
    }

    /// The place of the declaration with a code, of those behind the first so many, among all of them, counted from 0. None exactly
    /// where they have none.
    #[inline(always)]
    pub fn place_behind(&self, skip: usize, code: u64) -> Option<usize>
        ensures decl { (pairs : List Pair)
            → option_and_then (slice_get (read_views pairs self.now)) result ≡ find_decl (drop skip (read_views pairs self.now)) code }
        ensures within { IfSome result (λ place. place < length self.now) }
    {
        let place = self.codes.place(code)?;
        if place < skip { None } else { Some(place) }
    }

    // Appends a declaration with a code of its own.
    pub(crate) fn push(&mut self, decl: ReadDecl) -> Result<(), NoMemory>
        requires { place_of (read_codes self.old) decl.code ≡ None }
        ensures ok { OnOk result (self.new ≡ self.old ++ decl ∷ []) }
        ensures err { OnErr result (self.new ≡ self.old) }
    {
        let place = self.decls.len();
        self.decls.push(decl)?;
        match self.codes.push(decl.code, place) {
            Ok(()) => Ok(()),
            Err(error) => {
                self.decls.truncate(place);
                Err(error)
            }
        }
    }

    /// How many declarations there are.
    #[inline(always)]
    pub fn len(&self) -> usize
        ensures len { result ≡ length self.now }
        ensures small { result < 2 ^ 63 }
    {
        self.decls.len()
    }

    /// The declarations in their order.
    #[inline(always)]
    pub fn as_slice(&self) -> &[ReadDecl]
        ensures { result.now ≡ self.now }
    {
        self.decls.as_slice()
    }

    // The same, each with names and forms of its own.
    pub(crate) fn apart(self, alloc: Global, row: &[Pair]) -> Result<Rows, NoMemory>
        requires { All (IsInRow row.now) self }
        ensures { IfOk result (λ rows. rows ≡ read_views row.now self) }
    {
        let ReadRows { decls: read, codes } = self;
        let mut decls = Vec::new(alloc);
        for decl in read.as_slice() {
            let pairs = row[decl.first..decl.first + decl.count].to_vec(alloc)?;
            decls.push(Decl {
                code: decl.code,
                tag: decl.tag,
                children: decl.children,
                pairs: Pairs::new(pairs),
            })?;
        }
        Ok(Rows { decls, codes })
    }
}
