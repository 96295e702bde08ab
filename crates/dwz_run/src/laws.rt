//! What follows of how a run ends.
//!
//! They are laws over how a run ended, and not more clauses of `run`: so they are proved without a look at code, and use nothing but
//! `ends`, `complete` and `refuses`.

ghost use Rattle.dwz_run.specs.BatchLaws.{BatchLaw, PartlyLaw, ReuseAloneLaw};
ghost use Rattle.dwz_run.specs.DemoLaws.{DemoLaw};
ghost use Rattle.dwz_run.specs.Laws.{AnswerLaw, ApartLaw, CompareLaw, CompleteLaw, DoneLaw, NothingLaw, PrefixesLaw, RefusedLaw, RefusesLaw, SilentLaw};
ghost use Rattle.dwz_run.specs.Laws.{StoppedLaw, UsageLaw, WorkersLaw};
ghost use Rattle.dwz_run.specs.SecondCall.{AgainLaw};
ghost use Rattle.dwz_run.specs.SecondOver.{AgainAloneLaw, AgainOverLaw};

/// Where a run answers Done, its words are lawful and name FILEs, which were held and read as documents; what is put of these is put, in
/// order, and nothing else; each FILE then holds what is made of it, and the common file, if there is one, is there; and what is written
/// says the same as what was read, along images, with imports expanded (DWARF 5, 3.2.5), where entries share an image exactly where they
/// move and nothing tells them apart. Its text is written, once. Or its words ask for a demonstration, and nothing is held otherwise than
/// before. Or they ask with `--explain` why two entries aren't shared: the files of these were held and read as documents, the text says
/// it, and nothing is held otherwise than before. Or they ask with `--check` whether two files mean the same: these were held and read,
/// as files that may have been written, they do, and nothing is held otherwise than before. Or they ask with `--expand` for one file
/// without its partial units: this was held and read, with its common file where that is given; what is put to OUT has copies of what
/// units imported, reads as a file by itself, but for limits, and means the same, where spaces of partial units fit those of units; and
/// nothing else is put. Or they ask with `--reuse` for FILEs over a finished common file: this was held and read, and the FILEs beside it; what
/// is put of these is put, in order, and nothing else, the common file keeps its bytes, and with it what is written says the same as what was
/// read, along images, where entries that it has more than once count as one. Or they ask with `--batch` for many FILEs over one, and so it is
/// of each as if it were alone with it; where it answers Partly some of them are refused, and so it is of the others. What comes of each is
/// what a call with `--reuse` for it alone asks for, with the same name of the common file.
/// Where it answers Differs two files that are compared don't mean the same, and the text says where they part.
/// Where it answers ConsoleFault one of all these is so too, but for the text, which isn't written. What is put and said is the same for
/// every number of workers.
pub fn done_laws()
    ensures done { DoneLaw }
    ensures partly { PartlyLaw }
    ensures alone { ReuseAloneLaw }
    ensures apart { ApartLaw }
    ensures silent { SilentLaw }
    ensures workers { WorkersLaw }
{}

/// Where a run answers Usage, Refused, ReadFault or NoMemory, nothing is put. Where it answers Refused, the files that were got have a
/// first fault, or what is put of them has one, with `--expand` as well, or with `--explain` no entry that may move begins at one of the
/// two places, of which the first such is told; and it is named. Words that aren't lawful get Usage, and no others.
pub fn cause_laws()
    ensures nothing { NothingLaw }
    ensures refused { RefusedLaw }
    ensures usage { UsageLaw }
{}

/// Where no get, no put and no writing of the text failed, lawful words get Done, Refused or NoMemory, or with `--check` Differs: of
/// files that are held, Refused where there is a first refusal, and else Done, with `--explain` and `--expand` as well; with `--check`
/// Done where the two files mean the same, and Differs where they don't; with `--batch`, where nothing refuses all, Partly exactly if a FILE
/// is refused alone, and else Done. Memory may always run out.
pub fn answer_laws()
    ensures answer { AnswerLaw }
    ensures complete { CompleteLaw }
    ensures batch { BatchLaw }
    ensures compare { CompareLaw }
    ensures refuses { RefusesLaw }
{}

/// Where a run that slims FILEs answers Done, a second one with `--check` says of each of these, as it was read and as it is held then,
/// that the two mean the same (DWARF 5, 3.2.5 and 7.3.6): with `--sup` and the common file where one of the two has `.debug_sup`, and else
/// without. So it is after `--reuse`, with the common file of that, and after `--batch`, also where it answers Partly, of each FILE that isn't
/// refused. All this where no get and no writing of the text failed, and what is got is within the limits; memory may always run out.
pub fn second_call_laws()
    ensures again { AgainLaw }
    ensures over { AgainOverLaw }
    ensures alone { AgainAloneLaw }
{}

/// Where a run answers WriteFault, the first puts are done, and the next one failed, whose name is told. Each FILE is as it was, or as it
/// is made, and then the common file stands; it reads as before. So it is after the first puts, however many. With `--expand` there is one
/// put: where it failed, nothing is held otherwise than before. With `--reuse` and `--batch` the common file keeps its bytes.
pub fn stop_laws()
    ensures stopped { StoppedLaw }
    ensures prefixes { PrefixesLaw }
{}

/// Where words ask for a demonstration, what is said is of its two files with a common one, in one line, or it is the first refusal of
/// these; a run doesn't answer Usage, ReadFault or WriteFault. Nothing is held otherwise than before.
pub fn demo_laws()
    ensures { DemoLaw }
{}
