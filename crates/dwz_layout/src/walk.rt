//! The entries of a unit that is written, one by one.
//!
//! Whether an entry has children is seen from the rows behind it, not from its declaration.

ghost use Rattle.std.specs.Prelude.{◌≡◌, ◌∷◌, ◌++◌, [], MatchOption};
ghost use Rattle.std.specs.Option.{option_to_list};
ghost use Rattle.dwz_layout.specs.declared.walk.Origin.TheVariants.{Read};
ghost use Rattle.dwz_layout.specs.Entries.{depth_of, entries_of, items_slots, root_of, slot, what_slots, whole_slots};
ghost use Rattle.dwz_layout.specs.Walking.{IsNext, behind, below, empty_run, run_slots};

use crate::known::{EntryTable, Row};
use crate::order::{Sort, UnitItems};
use dwz_layout_items::{Item, ItemKind};
use std::marker::Model;

/// What an entry that is written comes from.
#[derive(Clone, Copy)]
pub enum Origin {
    /// An entry that was read.
    Read(Row),
    /// The root of a partial unit, with the offset of its line table, if it names one.
    OwnRoot(Option<u32>),
    /// A space of a partial unit, in the chain with that number, which has its name from the space with this number.
    Chained { chain: u32, space: u32 },
    /// An import of the partial unit with this number.
    Imported(u32),
}

/// An entry, and how deep it stands: a root has depth 1.
#[derive(Clone, Copy)]
pub struct Slot {
    pub origin: Origin,
    pub depth: u64,
}

/// An entry, how deep it stands, whether children follow, and how many lists of children end behind it.
#[derive(Clone, Copy)]
pub struct Entry {
    pub origin: Origin,
    pub depth: u64,
    pub children: bool,
    pub ends: u64,
}

/// Entries of a file that follow each other. What stood as deep as `base` stands at `depth`.
#[derive(Clone, Copy)]
pub(crate) struct Run {
    file: u32,
    next: u32,
    end: u32,
    depth: u32,
    base: u32,
}

/// The next entry, if there is one, and what comes behind it.
#[derive(Clone, Copy)]
pub(crate) struct Ahead<'w> {
    slot: Option<Slot>,
    run: Run,
    items: &'w [Item],
}

/// The entries of a unit that come next. Clauses see them with their depths.
#[derive(Drop)]
pub struct Walk<'w, 'u, 'a> {
    known: &'w EntryTable<'u, 'a>,
    sort: Sort,
    ahead: Ahead<'w>,
}

impl<'w, 'u, 'a> Model for Walk<'w, 'u, 'a> {
    ghost use Rattle.std.specs.Prelude.{List, ◌++◌};
    ghost use Rattle.std.specs.Option.{option_to_list};
    ghost use Rattle.dwz_layout.specs.declared.walk.Slot.{Slot};
    ghost use Rattle.dwz_layout.specs.Walking.{IsWhole, behind};

    ghost Value = { List Slot };

    ghost view = { λ w. option_to_list w.ahead.slot ++ behind w.known.now w.sort w.ahead };

    ghost invariant = { λ w. IsWhole w.ahead.slot (behind w.known.now w.sort w.ahead) };
}

// An entry that stands so deep, and what follows it.
struct Begun {
    slot: Slot,
    run: Run,
}

// No entries.
#[inline(always)]
fn no_run() -> Run
    ensures { result ≡ empty_run }
{
    Run {
        file: 0,
        next: 0,
        end: 0,
        depth: 0,
        base: 0,
    }
}

// The entries below one that stands so deep.
#[inline(always)]
fn run_below(known: &EntryTable, row: Row, depth: u32) -> Run
    ensures { run_slots known.now result ≡ below known.now depth row }
{
    match known.entry(row) {
        Some(entry) => Run {
            file: row.file,
            next: row.entry + 1,
            end: entry.end,
            depth,
            base: entry.depth,
        },
        None => no_run(),
    }
}

// An entry alone.
#[inline(always)]
fn alone(origin: Origin, depth: u32) -> Begun
    ensures slot { result.slot ≡ slot depth origin }
    ensures run { result.run ≡ empty_run }
{
    Begun {
        slot: Slot {
            origin,
            depth: depth as u64,
        },
        run: no_run(),
    }
}

// An entry that was read, with all below it.
#[inline(always)]
fn tree(known: &EntryTable, row: Row, depth: u32) -> Begun
    ensures slot { result.slot ≡ slot depth (Read row) }
    ensures run { run_slots known.now result.run ≡ below known.now depth row }
{
    Begun {
        slot: Slot {
            origin: Origin::Read(row),
            depth: depth as u64,
        },
        run: run_below(known, row, depth),
    }
}

// A whole unit.
#[inline(always)]
fn whole(known: &EntryTable, sort: Sort, depth: u32) -> Begun
    ensures { whole_slots known.now depth sort ≡ result.slot ∷ run_slots known.now result.run }
{
    match sort {
        Sort::Compile(root) => tree(known, root, depth),
        Sort::OfType { root, .. } => tree(known, root, depth),
        Sort::Partial(line) => alone(Origin::OwnRoot(line), depth),
    }
}

// What the root of a unit comes from.
#[inline(always)]
fn root_origin(sort: Sort) -> Origin
    ensures { result ≡ root_of sort }
{
    match sort {
        Sort::Compile(root) => Origin::Read(root),
        Sort::OfType { root, .. } => Origin::Read(root),
        Sort::Partial(line) => Origin::OwnRoot(line),
    }
}

// What an item begins with.
#[inline(always)]
fn first_of(known: &EntryTable, sort: Sort, item: &Item) -> Begun
    ensures { what_slots known.now sort item.now.depth item.now.what ≡ result.slot ∷ run_slots known.now result.run }
{
    match item.what {
        ItemKind::Root => alone(root_origin(sort), item.depth),
        ItemKind::Whole => whole(known, sort, item.depth),
        ItemKind::Top(top) => tree(known, known.top(top), item.depth),
        ItemKind::Space(space) => alone(Origin::Read(known.space(space).row), item.depth),
        ItemKind::InChain { chain, space } => alone(Origin::Chained { chain, space }, item.depth),
        ItemKind::Import(part) => alone(Origin::Imported(part), item.depth),
    }
}

impl Run {
    // The next entry.
    #[inline(always)]
    fn step(&mut self, known: &EntryTable) -> Option<Slot>
        ensures { IsNext (run_slots known.now self.old) result (run_slots known.now self.new) }
    {
        if self.next >= self.end {
            return None;
        }
        let row = Row {
            file: self.file,
            entry: self.next,
        };
        let entry = known.entry(row)?;
        self.next += 1;
        Some(Slot {
            origin: Origin::Read(row),
            depth: self.depth as u64 + entry.depth.saturating_sub(self.base) as u64,
        })
    }
}

// The next entry of these, and of what the items say.
#[inline(always)]
fn pull<'w>(known: &EntryTable, sort: Sort, entries: Run, items: &'w [Item]) -> Ahead<'w>
    ensures { IsNext (run_slots known.now entries ++ items_slots known.now sort items.now) result.slot (behind known.now sort result) }
{
    let mut run = entries;
    if let Some(slot) = run.step(known) {
        return Ahead {
            slot: Some(slot),
            run,
            items,
        };
    }
    let Some((item, items)) = items.split_first() else {
        return Ahead {
            slot: None,
            run,
            items,
        };
    };
    let Begun { slot, run } = first_of(known, sort, item);
    Ahead {
        slot: Some(slot),
        run,
        items,
    }
}

// How deep what comes next stands: behind all entries a root would follow.
#[inline(always)]
fn depth_ahead(slot: &Option<Slot>) -> u64
    ensures { result ≡ depth_of (option_to_list slot.now) }
{
    match slot {
        Some(next) => next.depth,
        None => 1,
    }
}

impl<'w, 'u, 'a> Walk<'w, 'u, 'a> {
    /// The entries of a unit.
    pub fn new(known: &'w EntryTable<'u, 'a>, unit: &'w UnitItems) -> Walk<'w, 'u, 'a>
        ensures { result ≡ items_slots known.now unit.now.sort unit.now.items }
    {
        Walk {
            known,
            sort: unit.sort,
            ahead: pull(known, unit.sort, no_run(), unit.items.as_slice()),
        }
    }

    /// The next entry, or none behind the last.
    #[inline(always)]
    pub fn next(&mut self) -> Option<Entry>
        ensures { MatchOption result (self.old ≡ []) (λ e. entries_of self.old ≡ e ∷ entries_of self.new) }
    {
        let slot = self.ahead.slot?;
        self.ahead = pull(self.known, self.sort, self.ahead.run, self.ahead.items);
        let depth = depth_ahead(&self.ahead.slot);
        Some(Entry {
            origin: slot.origin,
            depth: slot.depth,
            children: slot.depth < depth,
            ends: slot.depth.saturating_sub(depth),
        })
    }
}
