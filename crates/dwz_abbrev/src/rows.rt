//! The declarations of a table, in memory, each with its own names and forms.

ghost use Rattle.std.specs.Prelude.{◌≡◌, ◌<◌, ◌^◌, ◌++◌, ◌∷◌, [], IfOk, None, OnErr, OnOk, length};
ghost use Rattle.std.specs.Option.{option_copied, option_map};
ghost use Rattle.dwz_def_reading.specs.Abbrevs.{find_decl};
ghost use Rattle.dwz_abbrev.specs.Views.{decl_view, views};

use crate::codes::Codes;
use crate::decl::Decl;
use dwz_model::NoMemory;
use std::alloc::Global;
use std::marker::Model;

/// Declarations with different codes. Clauses see them in their order.
#[derive(Drop)]
pub(crate) struct Rows {
    pub decls: Vec<Decl>,
    pub codes: Codes,
}

impl Model for Rows {
    ghost use Rattle.std.specs.Prelude.{List};
    ghost use Rattle.dwz_def_reading.specs.Abbrevs.{Declaration};

    ghost Value = { List Declaration };

    ghost use Rattle.dwz_abbrev.specs.Views.{views};
    ghost use Rattle.dwz_abbrev.specs.Places.{Leads, codes_of};

    ghost view = { λ r. views r.decls.items };

    ghost invariant = { λ r. Leads r.codes (codes_of (views r.decls.items)) };
}

impl Rows {
    // No declarations.
    pub(crate) fn new(alloc: Global) -> Rows
        ensures { result ≡ [] }
    {
        Rows {
            decls: Vec::new(alloc),
            codes: Codes::new(alloc),
        }
    }

    // Makes room for so many more.
    pub(crate) fn reserve(&mut self, room: usize) -> Result<(), NoMemory>
        ensures { self.new ≡ self.old }
    {
        self.decls.reserve(room)
    }

    // The declaration with a code, if one has it.
    #[inline(always)]
    pub(crate) fn decl(&self, code: u64) -> Option<&Decl>
        ensures { option_map decl_view (option_copied result) ≡ find_decl self.now code }
    {
        let place = self.codes.place(code)?;
        Some(&self.decls[place])
    }

    // Appends a declaration with a code of its own.
    pub(crate) fn push(&mut self, decl: Decl) -> Result<(), NoMemory>
        requires { find_decl self.old decl.code ≡ None }
        ensures ok { OnOk result (self.new ≡ self.old ++ decl_view decl ∷ []) }
        ensures err { OnErr result (self.new ≡ self.old) }
    {
        let code = decl.code;
        let place = self.decls.len();
        self.decls.push(decl)?;
        match self.codes.push(code, place) {
            Ok(()) => Ok(()),
            Err(error) => {
                self.decls.truncate(place);
                Err(error)
            }
        }
    }

    // How many declarations there are.
    #[inline(always)]
    pub(crate) fn len(&self) -> usize
        ensures len { result ≡ length self.now }
        ensures small { result < 2 ^ 63 }
    {
        self.decls.len()
    }

    // The declarations in their order.
    #[inline(always)]
    pub(crate) fn as_slice(&self) -> &[Decl]
        ensures { views result.now ≡ self.now }
    {
        self.decls.as_slice()
    }
}
