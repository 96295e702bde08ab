//! What holds between the spelling of values, reading them and writing them.

ghost use Rattle.std.specs.Prelude.{◌≡◌, ◌↔◌, ℕ, List, Err};
ghost use Rattle.dwz_model.specs.declared.fault.Fault.{Fault};
ghost use Rattle.dwz_model.specs.declared.place.Pair.{Pair};
ghost use Rattle.dwz_bytes.specs.Input.{Input};
ghost use Rattle.dwz_bytes.specs.Laws.{One};
ghost use Rattle.dwz_codes.specs.Forms.{form_rows};
ghost use Rattle.dwz_codes.specs.Rows.{RowView};
ghost use Rattle.dwz_def_reading.specs.Parts.{Again, Found};
ghost use Rattle.dwz_def_reading.specs.Values.{AreBytes, HasSpelling, IsValueFault, Raw, SpellsValue, value_at, value_bytes, written_rows};

/// Values under any table of forms: what is read is spelled, what is spelled is read whatever follows, no spelling begins
/// another, and reading answers a fault exactly where that fault's reason holds of the bytes. What is written of a value
/// that can be spelled is such a spelling, and a value that is read can be spelled in a form that is written.
pub fn value_laws()
    ensures found { (rows : List RowView) (pair : Pair) → Found (SpellsValue rows pair) (value_at rows pair) }
    ensures again { (rows : List RowView) (pair : Pair) → Again (SpellsValue rows pair) (value_at rows pair) }
    ensures one { (rows : List RowView) (pair : Pair) → One (SpellsValue rows pair) }
    ensures fault { (rows : List RowView) (pair : Pair) (i : Input) (f : Fault)
        → (value_at rows pair i ≡ Err f) ↔ IsValueFault rows pair i f }
    ensures written { (form : ℕ) (raw : Raw) (h : HasSpelling form raw) → SpellsValue written_rows h.pair (value_bytes form raw) raw }
    ensures kept { (pair : Pair) (bytes : List ℕ) (raw : Raw) → AreBytes bytes → SpellsValue form_rows pair bytes raw
        → HasSpelling pair.form raw }
{}
