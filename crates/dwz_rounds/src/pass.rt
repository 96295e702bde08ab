//! One pass: the nodes that point at pending ones are told apart by these, and the parts of their classes get numbers.
//!
//! That this is as good as whole keys is one lemma (`TellApart`). A pass gives a new number or leaves nothing pending, and there are no
//! more numbers than nodes: so passes end.
ghost use Rattle.std.specs.Prelude.{◌≡◌, ℕ, ◌+◌, ◌-◌, ◌*◌, ◌<◌, ◌≤◌, ◌^◌, [], All, IfOk, IsTrue, List, OnOk, length, min};
ghost use Rattle.std.specs.List.Sorted.{IsNonDecreasingBy};
ghost use Rattle.dwz_nodes.specs.Graph.{IsClosed};
ghost use Rattle.dwz_nodes.specs.Uses.{AreUses, uses_at};
ghost use Rattle.dwz_nodes.specs.Mentions.{part_key, sources_of, AreMentions};
ghost use Rattle.dwz_rounds.specs.Marked.{AreMarked};
ghost use Rattle.dwz_rounds.specs.Members.{AreMembers};
ghost use Rattle.dwz_rounds.specs.Pending.{AreSame, AreWithWholes, IsPending};
ghost use Rattle.dwz_rounds.specs.Room.{HasMarks, IsRoom};
ghost use Rattle.dwz_rounds.specs.Split.{IsGrouped};

use crate::marked::clear;
use crate::members::Range;
use crate::split::{NO_PART, Part, find_parts, split};
use crate::visit::{visit_sources, visit_wholes};
use dwz_model::NoMemory;
use dwz_nodes::{
    Groups, Keys, Mention, Nodes, Uses, fill_parts, groups_of, list_mentions, rows_of,
};
use std::alloc::Global;

// The nodes of the list, those together that have one number and the same numbers at the same places. What `keys` held is
// lost.
fn group_nodes(
    alloc: Global,
    numbers: &[u32],
    mentions: &[Mention],
    visit: &[u32],
    keys: &mut Keys,
) -> Result<Groups, NoMemory>
    requires few { length numbers.now < 2 ^ 32 }
    requires rising { IsNonDecreasingBy (λ m. m.source) mentions.now }
    requires inside { All (λ a. a < length numbers.now) visit.now }
    ensures grouped { IfOk result (λ g. IsGrouped (part_key numbers.now mentions.now) numbers.now g.nodes.items g.news.items) }
    ensures same { IfOk result (λ groups. AreSame visit.now groups.nodes.items) }
    ensures len { IfOk result (λ groups. length groups.news.items ≡ length groups.nodes.items) }
{
    fill_parts(keys, numbers, mentions, visit)?;
    let rows = rows_of(alloc, keys, visit)?;
    let groups = groups_of(alloc, rows)?;
    Ok(groups)
}

/// Room that passes use again and again.
#[derive(Drop)]
pub(crate) struct Scratch {
    mentions: Vec<Mention>,
    marks: Vec<bool>,
    visit: Vec<u32>,
    whole: Vec<bool>,
    wholes: Vec<u32>,
    hits: Vec<u32>,
    parts: Vec<Part>,
    keys: Keys,
}

/// Room for so many nodes.
pub(crate) fn new_room(alloc: Global, count: usize) -> Result<Scratch, NoMemory>
    ensures { IfOk result (λ room. IsRoom count room) }
{
    Ok(Scratch {
        mentions: Vec::new(alloc),
        marks: vec![in alloc; false; count]?,
        visit: Vec::new(alloc),
        whole: vec![in alloc; false; count]?,
        wholes: Vec::new(alloc),
        hits: vec![in alloc; 0; count]?,
        parts: vec![in alloc; NO_PART; count]?,
        keys: Keys::new(alloc),
    })
}

// Lists the mentions of pending nodes, and the nodes to look at.
fn look(
    uses: &Uses,
    numbers: &[u32],
    ranges: &[Range],
    members: &[u32],
    pending: &[u32],
    room: &mut Scratch,
) -> Result<(), NoMemory>
    requires rows { length uses.now ≡ length numbers.now }
    requires sources { (t : ℕ) → t < length uses.now → All (λ u. u.source < length numbers.now) (uses_at uses.now t) }
    requires pending { All (λ a. a < length numbers.now) pending.now }
    requires members { AreMembers numbers.now ranges.now members.now }
    requires numbers { All (λ c. c < length ranges.now) numbers.now }
    requires room { IsRoom (length numbers.now) room.old }
    ensures looking { OnOk result (HasMarks (length numbers.now) room.new) }
    ensures mentions { OnOk result (AreMentions uses.now numbers.now pending.now room.new.mentions.items) }
    ensures all { OnOk result (AreWithWholes numbers.now (sources_of room.new.mentions.items) room.new.visit.items room.new.wholes.items) }
{
    list_mentions(uses, numbers, pending, &mut room.mentions)?;
    visit_sources(
        room.mentions.as_slice(),
        room.marks.as_mut_slice(),
        &mut room.visit,
    )?;
    visit_wholes(
        numbers,
        ranges,
        members,
        room.hits.as_mut_slice(),
        room.marks.as_mut_slice(),
        &mut room.visit,
        room.whole.as_mut_slice(),
        &mut room.wholes,
    )?;
    Ok(())
}

// Clears what was marked.
fn forget(room: &mut Scratch, count: usize)
    requires { HasMarks count room.old }
    ensures { IsRoom count room.new }
{
    clear(room.marks.as_mut_slice(), &mut room.visit);
    clear(room.whole.as_mut_slice(), &mut room.wholes);
}

/// Looks at the nodes that point at pending ones, and of their targets at these alone, gives numbers to the parts of their
/// classes, and makes those nodes the pending ones whose number changed. It answers false where there aren't numbers enough.
pub(crate) fn pass(
    alloc: Global,
    nodes: &Nodes,
    uses: &Uses,
    numbers: &mut [u32],
    ranges: &mut Vec<Range>,
    members: &mut Vec<u32>,
    pending: &mut Vec<u32>,
    room: &mut Scratch,
) -> Result<bool, NoMemory>
    requires closed { IsClosed nodes.now }
    requires few { length nodes.now < 2 ^ 32 - 1 }
    requires uses { AreUses nodes.now uses.now }
    requires pending { IsPending nodes.now numbers.old pending.old.items }
    requires members { AreMembers numbers.old ranges.old.items members.old.items }
    requires some { 0 < length pending.old.items }
    requires room { IsRoom (length nodes.now) room.old }
    ensures len { length numbers.new ≡ length numbers.old }
    ensures pending { IfOk result (λ done. IsTrue done → IsPending nodes.now numbers.new pending.new.items) }
    ensures members { IfOk result (λ done. IsTrue done → AreMembers numbers.new ranges.new.items members.new.items) }
    ensures room { IfOk result (λ _. IsRoom (length nodes.now) room.new) }
    ensures less { IfOk result (λ done. IsTrue done → 2 * (length nodes.now - length ranges.new.items)
        + min 1 (length pending.new.items) < 2 * (length nodes.now - length ranges.old.items) + min 1 (length pending.old.items)) }
{
    look(
        uses,
        numbers,
        ranges.as_slice(),
        members.as_slice(),
        pending.as_slice(),
        room,
    )?;
    let groups = group_nodes(
        alloc,
        numbers,
        room.mentions.as_slice(),
        room.visit.as_slice(),
        &mut room.keys,
    )?;
    let listed = groups.nodes.as_slice();
    let news = groups.news.as_slice();
    let wanted = !room.wholes.is_empty();
    find_parts(listed, news, numbers, wanted, room.parts.as_mut_slice());
    pending.clear();
    let done = split(
        listed,
        news,
        room.whole.as_slice(),
        room.parts.as_slice(),
        numbers,
        ranges,
        members,
        pending,
    )?;
    forget(room, nodes.len() as usize);
    Ok(done)
}
