//! Labels, one behind the other.

ghost use Rattle.std.specs.Prelude.{◌≡◌, ◌-◌, ◌<◌, ◌≤◌, [], ◌∷◌, ◌++◌, length, map, slice_index_or, slice_range, IfOk, OnOk, OnErr};
ghost use Rattle.std.specs.List.{range_with_len};
ghost use Rattle.dwz_groups.specs.Parts.{start_at};

use crate::writer::LabelWriter;
use dwz_model::NoMemory;
use std::alloc::Global;
use std::marker::Model;

/// Labels, numbered from 0. Contracts see them as a list of lists of bytes.
#[derive(Drop)]
pub struct Labels {
    ends: Vec<usize>,
    // The bytes of all labels, one behind the other.
    bytes: Vec<u8>,
}

impl Model for Labels {
    ghost use Rattle.std.specs.Prelude.{ℕ, List, length};
    ghost use Rattle.dwz_groups.specs.Parts.{parts_of, Rise};

    ghost Value = { List (List ℕ) };

    ghost view = { λ l. parts_of 0 l.ends.items l.bytes.items };

    ghost invariant = { λ l. Rise 0 l.ends.items (length l.bytes.items) };
}

impl Labels {
    /// No labels. It takes memory from `alloc` as it grows.
    pub fn new(alloc: Global) -> Labels
        ensures { result ≡ [] }
    {
        Labels {
            ends: Vec::new(alloc),
            bytes: Vec::new(alloc),
        }
    }

    /// Appends a label. After an error all is as before.
    pub fn push(&mut self, label: &[u8]) -> Result<(), NoMemory>
        ensures ok { OnOk result (self.new ≡ self.old ++ label.now ∷ []) }
        ensures err { OnErr result (self.new ≡ self.old) }
    {
        let kept = self.bytes.len();
        self.bytes.extend_from_slice(label)?;
        let end = self.bytes.len();
        match self.ends.push(end) {
            Ok(()) => Ok(()),
            Err(failed) => {
                self.bytes.truncate(kept);
                Err(NoMemory::from(failed))
            }
        }
    }

    /// None yet, with room for so many, and for so many bytes.
    pub fn with_capacity(alloc: Global, count: usize, size: usize) -> Result<Labels, NoMemory>
        ensures { IfOk result (λ labels. labels ≡ []) }
    {
        Ok(Labels {
            ends: Vec::with_capacity(alloc, count)?,
            bytes: Vec::with_capacity(alloc, size)?,
        })
    }

    // Those of a writer from one number to before another.
    pub(crate) fn from_writer<W: LabelWriter>(
        alloc: Global,
        writer: &W,
        room: &mut W::Scratch,
        first: usize,
        end: usize,
    ) -> Result<Labels, NoMemory>
        requires rising { first ≤ end }
        requires within { end ≤ W.count writer.now }
        ensures { IfOk result (λ labels. labels ≡ map (W.label writer.now) (range_with_len first (end - first))) }
    {
        let mut ends = Vec::with_capacity(alloc, end - first)?;
        let mut bytes = Vec::new(alloc);
        for n in first..end {
            writer.put_label(room, &mut bytes, n)?;
            ends.push(bytes.len())?;
        }
        Ok(Labels { ends, bytes })
    }

    // These, and more behind them.
    pub(crate) fn with(self, more: &Labels) -> Result<Labels, NoMemory>
        ensures { IfOk result (λ all. all ≡ self ++ more.now) }
    {
        let Labels {
            mut ends,
            mut bytes,
        } = self;
        let start = bytes.len();
        bytes.extend_from_slice(more.bytes.as_slice())?;
        for end in &more.ends {
            ends.push(start + *end)?;
        }
        Ok(Labels { ends, bytes })
    }

    // How many bytes they have together.
    pub(crate) fn size(&self) -> usize {
        self.bytes.len()
    }

    /// How many there are.
    pub fn len(&self) -> usize
        ensures { result ≡ length self.now }
    {
        self.ends.len()
    }

    /// The label with that number.
    #[inline(always)]
    pub fn get(&self, n: usize) -> &[u8]
        requires { n < length self.now }
        ensures { result.now ≡ slice_index_or self.now n [] }
    {
        let end = self.ends[n];
        part(
            self.bytes.as_slice(),
            start_of(self.ends.as_slice(), n),
            end,
        )
    }
}

// Where the label with that number begins.
#[inline(always)]
fn start_of(ends: &[usize], n: usize) -> usize
    requires { n < length ends.now }
    ensures { result ≡ start_at 0 ends.now n }
{
    if n == 0 { 0 } else { ends[n - 1] }
}

#[inline(always)]
fn part(bytes: &[u8], start: usize, end: usize) -> &[u8]
    requires rising { start ≤ end }
    requires within { end ≤ length bytes.now }
    ensures { result.now ≡ slice_range bytes.now start end }
{
    &bytes[start..end]
}
