//! The nodes whose keys are looked at again: those that point at a pending node, and the whole class of them where
//! they are most of it.
ghost use Rattle.std.specs.Prelude.{◌≡◌, ℕ, ◌<◌, ◌≤◌, ◌⊎◌, [], All, Contains, OnOk, length, slice_index};
ghost use Rattle.dwz_nodes.specs.Mentions.{sources_of};
ghost use Rattle.dwz_nodes.specs.Among.{Among};
ghost use Rattle.dwz_rounds.specs.Marked.{AreMarked, ArePut};
ghost use Rattle.dwz_rounds.specs.Members.{AreMembers};
ghost use Rattle.dwz_rounds.specs.Pending.{AreOfClass, AreWithWholes};

use crate::marked::put;
use crate::members::Range;
use dwz_model::NoMemory;
use dwz_nodes::Mention;

/// Lists the nodes that have these mentions.
pub(crate) fn visit_sources(
    mentions: &[Mention],
    marks: &mut [bool],
    visit: &mut Vec<u32>,
) -> Result<(), NoMemory>
    requires inside { All (λ m. m.source < length marks.old) mentions.now }
    requires marked { AreMarked marks.old visit.old.items }
    ensures len { length marks.new ≡ length marks.old }
    ensures marked { OnOk result (AreMarked marks.new visit.new.items) }
    ensures put { OnOk result (ArePut visit.old.items (sources_of mentions.now) visit.new.items) }
{
    for mention in mentions {
        put(marks, visit, mention.source)?;
    }
    Ok(())
}

// Lists the members of a class besides the nodes that are there.
fn visit_class(
    numbers: &[u32],
    range: Range,
    members: &[u32],
    class: u32,
    marks: &mut [bool],
    visit: &mut Vec<u32>,
) -> Result<(), NoMemory>
    requires range { (range.start ≤ range.end) × (range.end ≤ length members.now) }
    requires members { All (λ a. a < length numbers.now) members.now }
    requires len { length marks.old ≡ length numbers.now }
    requires marked { AreMarked marks.old visit.old.items }
    ensures len { (length marks.new ≡ length marks.old) × (length visit.old.items ≤ length visit.new.items) }
    ensures marked { OnOk result (AreMarked marks.new visit.new.items) }
    ensures of_class { OnOk result (AreOfClass numbers.now members.now class range.start range.end visit.old.items visit.new.items) }
{
    for at in range.start..range.end {
        let node = members[at];
        if numbers[node as usize] == class {
            put(marks, visit, node)?;
        }
    }
    Ok(())
}

// Whether so many nodes are most of the class.
fn is_most(hits: u32, range: Range) -> bool {
    hits > range.live / 2
}

// Takes the class of a listed node whole, if most of it is listed and it isn't whole yet.
fn visit_whole(
    numbers: &[u32],
    ranges: &[Range],
    members: &[u32],
    hits: &[u32],
    class: u32,
    marks: &mut [bool],
    visit: &mut Vec<u32>,
    whole: &mut [bool],
    wholes: &mut Vec<u32>,
) -> Result<(), NoMemory>
    requires class { class < length ranges.now }
    requires members { AreMembers numbers.now ranges.now members.now }
    requires len { (length marks.old ≡ length numbers.now) × (length whole.old ≡ length numbers.now)
        × (length hits.now ≡ length numbers.now) }
    requires marked { AreMarked marks.old visit.old.items }
    requires wholes { AreMarked whole.old wholes.old.items }
    requires whole { (a : ℕ) → a < length numbers.now → Among wholes.old.items (slice_index numbers.now a) → Among visit.old.items a }
    ensures len { (length marks.new ≡ length marks.old) × (length whole.new ≡ length whole.old)
        × (length visit.old.items ≤ length visit.new.items) }
    ensures marked { OnOk result (AreMarked marks.new visit.new.items) }
    ensures wholes { OnOk result (AreMarked whole.new wholes.new.items) }
    ensures from { OnOk result ((a : ℕ) → Among visit.new.items a
        → Among visit.old.items a ⊎ Among wholes.new.items (slice_index numbers.now a)) }
    ensures kept { OnOk result ((a : ℕ) → Among visit.old.items a → Among visit.new.items a) }
    ensures kept_wholes { OnOk result ((a : ℕ) → Among wholes.old.items a → Among wholes.new.items a) }
    ensures whole { OnOk result ((a : ℕ) → a < length numbers.now → Among wholes.new.items (slice_index numbers.now a)
        → Among visit.new.items a) }
{
    let range = ranges[class as usize];
    if !whole[class as usize] && is_most(hits[class as usize], range) {
        put(whole, wholes, class)?;
        visit_class(numbers, range, members, class, marks, visit)?;
    }
    Ok(())
}

// Counts the listed nodes of each class.
fn count_hits(numbers: &[u32], visit: &[u32], hits: &mut [u32])
    requires numbers { All (λ c. c < length hits.old) numbers.now }
    requires visit { All (λ a. a < length numbers.now) visit.now }
    ensures { length hits.new ≡ length hits.old }
{
    for a in visit {
        let class = numbers[*a as usize] as usize;
        hits[class] = hits[class].saturating_add(1);
    }
}

// Forgets these counts.
fn clear_hits(numbers: &[u32], visit: &[u32], hits: &mut [u32])
    requires numbers { All (λ c. c < length hits.old) numbers.now }
    requires visit { All (λ a. a < length numbers.now) visit.now }
    ensures { length hits.new ≡ length hits.old }
{
    for a in visit {
        hits[numbers[*a as usize] as usize] = 0;
    }
}

/// Adds the rest of each class of which most is listed.
pub(crate) fn visit_wholes(
    numbers: &[u32],
    ranges: &[Range],
    members: &[u32],
    hits: &mut [u32],
    marks: &mut [bool],
    visit: &mut Vec<u32>,
    whole: &mut [bool],
    wholes: &mut Vec<u32>,
) -> Result<(), NoMemory>
    requires members { AreMembers numbers.now ranges.now members.now }
    requires numbers { All (λ c. c < length ranges.now) numbers.now }
    requires len { (length marks.old ≡ length numbers.now) × (length whole.old ≡ length numbers.now)
        × (length hits.old ≡ length numbers.now) }
    requires marked { AreMarked marks.old visit.old.items }
    requires wholes { AreMarked whole.old wholes.old.items }
    requires none { wholes.old.items ≡ [] }
    ensures len { (length marks.new ≡ length marks.old) × (length whole.new ≡ length whole.old) × (length hits.new ≡ length hits.old) }
    ensures marked { OnOk result (AreMarked marks.new visit.new.items) }
    ensures wholes { OnOk result (AreMarked whole.new wholes.new.items) }
    ensures with_wholes { OnOk result (AreWithWholes numbers.now visit.old.items visit.new.items wholes.new.items) }
{
    count_hits(numbers, visit.as_slice(), hits);
    let count = visit.len();
    for at in 0..count {
        let class = numbers[visit[at] as usize];
        visit_whole(
            numbers, ranges, members, hits, class, marks, visit, whole, wholes,
        )?;
    }
    clear_hits(numbers, visit.as_slice(), hits);
    Ok(())
}
