//! Where the tops of a file stand.

ghost use Rattle.std.specs.Prelude.{◌≡◌, ℕ, ◌+◌, List, Ok, Some, map, slice_get};
ghost use Rattle.dwz_def_tops.specs.Spots.{Top, in_file, named, spot_in, spots_from, tops_from};
ghost use Rattle.dwz_def_reading.specs.Lists.{In};
ghost use Rattle.dwz_def_reading.specs.Units.{RawUnit};
ghost use Rattle.dwz_graph.specs.declared.index.Starts.{Starts};
ghost use Rattle.dwz_graph.specs.declared.index.TopEntry.{TopEntry};
ghost use Rattle.dwz_graph.specs.Steps.{all_tops, below_root, is_space};
ghost use Rattle.dwz_def_reading.specs.Documents.{Doc};
ghost use Rattle.dwz_def_reading.specs.Files.{Limits, around_of, file_meaning};
ghost use Rattle.dwz_graph.specs.Standing.{StandsAt};
ghost use Rattle.dwz_def_tops.specs.Lists.{NoneTwice};
ghost use Rattle.dwz_def_tops.specs.Shown.{units_keys};
ghost use Rattle.dwz_unit.specs.declared.rows.RawEntry.{RawEntry};
ghost use Rattle.dwz_unit.specs.Rows.{shown_entries};

/// In a file that is read, in whose document no place stands twice, each top stands from the entry that its file's index gives it up to
/// where that entry ends.
pub fn stand_laws()
    ensures { (l : Limits) (bytes : List ℕ) (raw : List RawUnit) (doc : Doc ℕ) (starts : Starts) (file : ℕ) (t : Top) (k : ℕ) (x : TopEntry)
        (e : RawEntry) → file_meaning l bytes ≡ Ok (raw, doc) → NoneTwice (units_keys doc.units)
        → In t (tops_from starts.unit starts.top (map (in_file file) (named starts.unit starts.top doc.units)))
        → slice_get (all_tops is_space starts 0 (map below_root doc.units)) k ≡ Some x → t.number ≡ starts.top + k
        → slice_get (shown_entries raw) x.entry ≡ Some e
        → StandsAt (around_of bytes raw) (spot_in (spots_from starts.unit starts.top doc.units)) raw doc.units file starts.unit t x.entry
        e.end }
{}
