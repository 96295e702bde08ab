//! What is laid of a planned run, and written by it, is byte for byte what the definitions give; also over a finished common file.
//!
//! There is no running code here, and nothing to believe. The definitions go from facts of files that were read (`Facts`) and the lists
//! of a layout (`AreListed`) over names, items and roots to what is written of each unit (`KnowTexts`, `KnowCommon`) and of all files
//! (`written_out`). The laws follow them: `named_laws`, `owned_laws`, `reached_laws` of the lists; `rule_laws` of a fair rule;
//! `item_laws`, `plan_laws`, `top_laws`, `space_laws`, `tree_laws` of the order; `kept_known_laws`, `parts_known_laws`, `known_laws`,
//! `fitted_laws`, `order_laws`, `laid_laws` of all that is written; `entry_laws`, `unit_laws`, `files_laws` of units whose values have
//! their forms.
//!
//! What is asked of a run (`AreFacts`) holds over a finished common file too (`over_laws`): tops move as is asked, what is written is
//! whole, and the entries of that file stand in its units. What is laid and written of files is said once for both (`Beside`): files whose
//! common file is made with them, and files over a finished one (`either_laws`, `either_order_laws`).
//!
//! Read first: `specs/Facts.antt`, `specs/Listed.antt`, `specs/Knows.antt`, `specs/Laid.antt`; over a finished common file
//! `specs/OverLaws.antt`, `specs/CommonRows.antt`, `specs/Either.antt`.
#![tactic(auto)]

ghost use Rattle.dwz_law_layout.specs.CommonRows.{StandingRowsLaw};
ghost use Rattle.dwz_law_layout.specs.Either.{LaidLaw, ManyLaw, OrderLaw, PlacedLaw, RootsLaw, SelfLaw, SettledOverLaw};
ghost use Rattle.dwz_law_layout.specs.OverLaws.{FactsOverLaw, OverMovesLaw, OverWholeLaw};

mod laid;
mod laws;

pub use laid::{
    apart_laws, fitted_laws, item_laws, kept_known_laws, known_laws, laid_laws, laid_unit_laws,
    named_laws, order_laws, owned_laws, parts_known_laws, plan_laws, reached_laws, refer_laws,
    rule_laws, space_laws, top_laws, tree_laws,
};
pub use laws::{after_laws, entry_laws, files_laws, stored_laws, unit_laws};

/// Over a finished common file tops move as laws of layouts ask, and what is written is whole; the names of that file stand where they were
/// read; and facts of files over it are facts.
pub fn over_laws()
    ensures moves { OverMovesLaw }
    ensures whole { OverWholeLaw }
    ensures rows { StandingRowsLaw }
    ensures facts { FactsOverLaw }
{}

/// Where an order shows the files that are written, what is laid of each, and written by it, are its sections in the run; an entry that is
/// written, or stands in a finished common file, has the place of its name; and a unit begins its header before its root.
pub fn either_laws()
    ensures many { ManyLaw }
    ensures laid { LaidLaw }
    ensures placed { PlacedLaw }
    ensures themselves { SelfLaw }
    ensures roots { RootsLaw }
{}

/// An order that shows the files is one that can be laid; and over a finished common file so is that of what is settled.
pub fn either_order_laws()
    ensures order { OrderLaw }
    ensures settled { SettledOverLaw }
{}
