//! What the plan of rows says of units, if the rows show the units' tops.
ghost use Rattle.dwz_plan.specs.OverLaws.{OneOverLaw, OverLaw, WholeOverLaw};
ghost use Rattle.dwz_plan.specs.PlanLaws.{FilesLaw, OneLaw, PlanLaw, RowsLaw, WholeLaw};
ghost use Rattle.dwz_plan.specs.ShowsMove.{MoveLaw};

/// If rows show the tops of units, and least numbers decide which of these are alike, then the plan of the rows is the plan of
/// the units by gain: its partial units are theirs; each top goes to its home, and is stood for as said; each unit keeps and
/// imports the same.
///
/// There is just one plan of rows, with an answer for each row and each unit. The files of documents are numbered as here. What shows
/// the plan by a rule shows a move.
pub fn plan_shows()
    ensures plan { PlanLaw }
    ensures one { OneLaw }
    ensures whole { WholeLaw }
    ensures rows { RowsLaw }
    ensures files { FilesLaw }
    ensures moves { MoveLaw }
{}

/// If rows show the tops of files and, behind them, those of a finished common file, and least numbers decide which of the tops of the
/// files are alike in one file, then the plan of the rows over it shows the move over it. All tops of the common file stay.
///
/// There is just one such plan of rows, with an answer for each row and each unit.
pub fn plan_over_shows()
    ensures moves { OverLaw }
    ensures one { OneOverLaw }
    ensures whole { WholeOverLaw }
{}
