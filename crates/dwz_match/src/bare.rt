//! Bare labels: labels of tops without the languages of their units.

ghost use Rattle.std.specs.Prelude.{◌≡◌, ℕ, ℤ, ◌+◌, ◌<◌, ◌++◌, ◌∷◌, List, Option, IfOk, OnOk, length, map};
ghost use Rattle.dwz_def_tops.specs.Spots.{Top};
ghost use Rattle.dwz_label.specs.Labels.{label_of, language_label, number};
ghost use Rattle.dwz_label.specs.Shown.{nth_label};
ghost use Rattle.dwz_match.specs.Bare.{bare_label};

use dwz_label::Labels;
use dwz_model::NoMemory;
use std::alloc::Global;

// What stands behind a number.
fn after_number(label: &[u8]) -> &[u8]
    ensures { (n : ℕ) (rest : List ℕ) → label.now ≡ number n ++ rest → result.now ≡ rest }
{
    let mut left = label;
    'groups: while let Some((group, others)) = left.split_first() {
        if *group < 128 {
            return others;
        }
        left = others;
    }
    left
}

// What stands behind the language of a unit.
fn after_language(label: &[u8]) -> &[u8]
    ensures { (language : Option ℤ) (rest : List ℕ) → label.now ≡ language_label language ++ rest → result.now ≡ rest }
{
    let Some((kind, others)) = label.split_first() else {
        return label;
    };
    if *kind == 0 {
        others
    } else {
        after_number(others)
    }
}

/// Of each label of a top its bare label behind a zero byte, which says that there is no language: bytes that are equal for two tops
/// exactly if their name lists and bare trees are. Of bytes that are no label some bytes.
pub fn bare_labels(alloc: Global, labels: &Labels) -> Result<Labels, NoMemory>
    ensures len { IfOk result (λ bare. length bare ≡ length labels.now) }
    ensures each { IfOk result (λ bare. (n : ℕ) (t : Top) → n < length labels.now → nth_label labels.now n ≡ label_of t
        → nth_label bare n ≡ 0 ∷ bare_label t) }
{
    let mut bare = Labels::new(alloc);
    let mut row = Vec::new(alloc);
    for n in 0..labels.len() {
        row.clear();
        row.push(0)?;
        row.extend_from_slice(after_language(labels.get(n)))?;
        bare.push(row.as_slice())?;
    }
    Ok(bare)
}

// Appends labels, each behind a zero byte.
fn put_behind(alloc: Global, bare: &mut Labels, labels: &Labels) -> Result<(), NoMemory>
    ensures { OnOk result (bare.new ≡ bare.old ++ map (λ label. 0 ∷ label) labels.now) }
{
    let mut row = Vec::new(alloc);
    for n in 0..labels.len() {
        row.clear();
        row.push(0)?;
        row.extend_from_slice(labels.get(n))?;
        bare.push(row.as_slice())?;
    }
    Ok(())
}

/// The bare labels of the tops of files, by their labels, and behind them the labels that tops of a common file have in looks across files:
/// each behind a zero byte, so that two are equal exactly if name lists and bare trees are.
pub fn joined_labels(alloc: Global, own: &Labels, common: &Labels) -> Result<Labels, NoMemory>
    ensures len { IfOk result (λ labels. length labels ≡ length own.now + length common.now) }
    ensures own { IfOk result (λ labels. (n : ℕ) (t : Top) → n < length own.now → nth_label own.now n ≡ label_of t
        → nth_label labels n ≡ 0 ∷ bare_label t) }
    ensures common { IfOk result (λ labels. (k : ℕ) → k < length common.now
        → nth_label labels (length own.now + k) ≡ 0 ∷ nth_label common.now k) }
{
    let mut labels = bare_labels(alloc, own)?;
    put_behind(alloc, &mut labels, common)?;
    Ok(labels)
}
