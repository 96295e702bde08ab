//! The entries of a new unit, copied one after the other.

ghost use Rattle.std.specs.Prelude.{◌≡◌, ℕ, ◌<◌, ◌-◌, [], ◌∷◌, List, Some, MatchOption, OnOk, nat_lt, map, slice_get};
ghost use Rattle.dwz_def_cross.specs.Tops.{WithCommon};
ghost use Rattle.dwz_def_expand.specs.Refusals.{Where};
ghost use Rattle.dwz_expand_layout.specs.Entries.{CanStore, CanWrite, line_view};
ghost use Rattle.dwz_expand_layout.specs.Lines.{Line};
ghost use Rattle.dwz_expand_passes.specs.Steps.{AnswersLine, CanBeWritten, IsSource, KnowsHere};
ghost use Rattle.dwz_expand_passes.specs.Steps.{copied_deep, copied_line, depth_at, line_before};
ghost use Rattle.dwz_expand_layout.specs.Shown.{keys_of};
ghost use Rattle.dwz_expand_passes.specs.Files.{IsKnownReady, SpeaksEntry, entry_count};
ghost use Rattle.dwz_expand_passes.specs.Lined.{all_lines};
ghost use Rattle.dwz_expand_passes.specs.Numbered.{key_in};
ghost use Rattle.dwz_model.specs.Lists.{Each};

use crate::files::Known;
use crate::heads::{Head, head_of};
use crate::values::put_attrs;
use dwz_expand_layout::{NewAttr, NewEntry, NewOperand};
use dwz_expand_sources::SourceWalk;
use dwz_expr::Operand;
use dwz_model::ReadErr;
use std::alloc::Global;

/// An entry that is copied, by its number.
#[derive(Clone, Copy)]
pub(crate) struct Source {
    pub(crate) entry: u32,
    head: Head,
}

/// The next source of a new unit.
pub(crate) fn next_source(known: &Known, walk: &mut SourceWalk) -> Option<Source>
    requires ready { IsKnownReady known.now }
    requires there { Each (λ i. i < entry_count known.now) walk.old }
    ensures { MatchOption result (walk.old ≡ []) (λ s. (walk.old ≡ s.entry ∷ walk.new) × IsSource known.now s) }
{
    let entry = walk.next()?;
    Some(Source {
        entry,
        head: head_of(known, entry),
    })
}

// How deep a source stands; behind the last one a root would follow.
fn depth_of(next: Option<Source>) -> u32
    ensures { result ≡ depth_at next }
{
    match next {
        Some(source) => source.head.depth,
        None => 1,
    }
}

/// What was made of an entry.
#[derive(Drop)]
pub(crate) struct CopiedEntry<'a> {
    tag: u16,
    children: bool,
    ends: u64,
    attrs: Vec<NewAttr<'a>>,
    operands: Vec<NewOperand>,
    // Room for the operands that are read.
    read: Vec<Operand>,
}

impl<'a> CopiedEntry<'a> {
    /// Nothing was copied yet.
    pub(crate) fn new(alloc: Global) -> CopiedEntry<'a> {
        CopiedEntry {
            tag: 0,
            children: false,
            ends: 0,
            attrs: Vec::new(alloc),
            operands: Vec::new(alloc),
            read: Vec::new(alloc),
        }
    }

    /// Copies an entry, behind which that one comes. Refused at the first value that can't be copied.
    pub(crate) fn copy(
        &mut self,
        known: &Known<'_, 'a>,
        source: Source,
        next: Option<Source>,
    ) -> Result<(), ReadErr>
        requires ready { IsKnownReady known.now }
        requires there { source.entry < entry_count known.now }
        requires source { IsSource known.now source }
        ensures stores { OnOk result (CanBeWritten self.new) }
        ensures line { OnOk result (copied_line self.new ≡ line_before (depth_at next) (copied_deep source.head.depth self.new)) }
        ensures copies { (w : WithCommon ℕ) (stands : Where ℕ) (l : Line ℕ) → KnowsHere known.now w stands
            → slice_get (all_lines w) source.entry ≡ Some l
            → AnswersLine known.now w stands l (copied_deep source.head.depth self.new) result }
        ensures speaks { (w : WithCommon ℕ) (stands : Where ℕ) (l : Line ℕ) → KnowsHere known.now w stands
            → slice_get (all_lines w) source.entry ≡ Some l → OnOk result (SpeaksEntry known.now.own known.now.common known.now.unit w
            (keys_of (key_in w)) source.entry self.new.operands.items) }
    {
        let depth = depth_of(next);
        self.tag = source.head.tag;
        self.children = source.head.depth < depth;
        self.ends = source.head.depth.saturating_sub(depth) as u64;
        put_attrs(
            known,
            source.entry,
            &mut self.attrs,
            &mut self.operands,
            &mut self.read,
        )
    }

    /// As it is written.
    pub(crate) fn entry(&self) -> NewEntry<'_, 'a>
        requires { CanBeWritten self.now }
        ensures line { line_view result ≡ copied_line self.now }
        ensures can { CanWrite result }
        ensures operands { result.operands.now ≡ self.now.operands.items }
    {
        NewEntry {
            tag: self.tag,
            children: self.children,
            ends: self.ends,
            attrs: self.attrs.as_slice(),
            operands: self.operands.as_slice(),
        }
    }
}
