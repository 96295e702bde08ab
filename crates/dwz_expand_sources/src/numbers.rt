//! The numbers of copies, by sums.

ghost use Rattle.std.specs.Prelude.{◌≡◌, ◌+◌, ◌-◌, ◌<◌, ◌^◌, ◌++◌, IfOk, OnOk};
ghost use Rattle.dwz_model.specs.Lists.{Each};
ghost use Rattle.dwz_expand_sources.specs.Numbers.{HasRanges, copy_count, numbers_from, range_count, range_numbers, ranges_count, root_numbers};

use crate::sources::{SourceRange, Sources};
use dwz_model::NoMemory;
use std::alloc::Global;
use std::marker::Model;

/// Where the copies of new units and of ranges stand among the entries of all new units, which are numbered from 0, unit by unit, and in
/// each from its root on, in preorder.
#[derive(Drop)]
pub struct CopyNumbers {
    roots: Vec<u64>,
    ranges: Vec<u64>,
}

impl Model for CopyNumbers {
    ghost use Rattle.dwz_expand_sources.specs.Numbers.{CopyNumbers};

    ghost Value = { CopyNumbers };

    ghost view = { λ n. record { roots = n.roots.items; ranges = n.ranges.items } };
}

// How many entries a range has.
fn count_of(range: &SourceRange) -> u64
    ensures { result ≡ range_count range.now }
{
    range.end.saturating_sub(range.first) as u64
}

// Adds the numbers of ranges, of which the first has the number `from`; and answers the number behind them.
fn put_numbers(numbers: &mut Vec<u64>, ranges: &[SourceRange], from: u64) -> Result<u64, NoMemory>
    requires { from + ranges_count ranges.now < 2 ^ 64 }
    ensures numbers { OnOk result (numbers.new.items ≡ numbers.old.items ++ numbers_from from ranges.now) }
    ensures behind { IfOk result (λ at. at ≡ from + ranges_count ranges.now) }
{
    let mut at = from;
    for range in ranges {
        numbers.push(at)?;
        at += count_of(range);
    }
    Ok(at)
}

impl CopyNumbers {
    /// The numbers of what a plan has, of which there are fewer than 2^64.
    pub fn of(alloc: Global, sources: &Sources) -> Result<CopyNumbers, NoMemory>
        requires ranges { Each (HasRanges sources.now.ranges) sources.now.units }
        requires few { copy_count sources.now.ranges sources.now.units < 2 ^ 64 }
        ensures roots { IfOk result (λ n. n.roots ≡ root_numbers sources.now.ranges 0 sources.now.units) }
        ensures ranges { IfOk result (λ n. n.ranges ≡ range_numbers sources.now.ranges 0 sources.now.units) }
    {
        let mut roots = Vec::new(alloc);
        let mut numbers = Vec::new(alloc);
        let all = sources.ranges();
        let mut at = 0;
        for unit in sources.units() {
            roots.push(at)?;
            at = put_numbers(&mut numbers, &all[unit.first..unit.end], at + 1)?;
        }
        Ok(CopyNumbers {
            roots,
            ranges: numbers,
        })
    }

    /// The number of the root of each new unit.
    pub fn roots(&self) -> &[u64]
        ensures { result.now ≡ self.now.roots }
    {
        self.roots.as_slice()
    }

    /// The number of the first copy of each range.
    pub fn ranges(&self) -> &[u64]
        ensures { result.now ≡ self.now.ranges }
    {
        self.ranges.as_slice()
    }
}
