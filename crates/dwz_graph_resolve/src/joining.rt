//! What the values of two stretches of units name, put together.

ghost use Rattle.std.specs.Prelude.{◌≡◌, ℕ, ◌+◌, List, [], ◌∷◌, ◌++◌, true, length, map, IfOk, IfSome};
ghost use Rattle.std.specs.Option.{option_map};
ghost use Rattle.dwz_graph_resolve.specs.ListRows.{raised};
ghost use Rattle.dwz_graph_resolve.specs.Stretches.{IsStretch, JoinsLists};

use crate::lists::{ListRow, Lists};
use crate::stretches::Stretch;
use dwz_lines::TableRows;
use dwz_model::NoMemory;

// Appends starts, which are to count from a number on. Answers whether all fit.
fn add_starts(starts: &mut Vec<u32>, more: &[u32], from: u32) -> Result<bool, NoMemory>
    ensures { IfOk result (λ fits. fits ≡ true → starts.new.items ≡ starts.old.items ++ map (λ k. from + k) more.now) }
{
    for start in more {
        let Some(raised) = from.checked_add(*start) else {
            return Ok(false);
        };
        starts.push(raised)?;
    }
    Ok(true)
}

// Appends references of entries and their starts. Answers whether these fit.
fn join_refs(
    refs: &mut Vec<u32>,
    starts: &mut Vec<u32>,
    more: &mut Vec<u32>,
    more_starts: &[u32],
) -> Result<bool, NoMemory>
    ensures refs { IfOk result (λ fits. fits ≡ true → refs.new.items ≡ refs.old.items ++ more.old.items) }
    ensures starts { IfOk result (λ fits. fits ≡ true → (ends : List ℕ) × (starts.old.items ≡ ends ++ length refs.old.items ∷ [])
        × (starts.new.items ≡ ends ++ map (λ k. length refs.old.items + k) more_starts.now)) }
{
    let Some(end) = starts.pop() else {
        return Ok(false);
    };
    if end as usize != refs.len() {
        return Ok(false);
    }
    refs.append(more)?;
    add_starts(starts, more_starts, end)
}

// The number of a line table behind others.
fn line_behind(line: Option<usize>, tables: usize) -> Option<Option<usize>>
    ensures { IfSome result (λ n. n ≡ option_map (λ k. tables + k) line) }
{
    match line {
        None => Some(None),
        Some(number) => match tables.checked_add(number) {
            None => None,
            Some(raised) => Some(Some(raised)),
        },
    }
}

// Appends numbers of line tables, which stand behind so many others. Answers whether all fit.
fn add_lines(
    lines: &mut Vec<Option<usize>>,
    more: &[Option<usize>],
    tables: usize,
) -> Result<bool, NoMemory>
    ensures { IfOk result (λ fits. fits ≡ true → lines.new.items ≡ lines.old.items ++ map (option_map (λ k. tables + k)) more.now) }
{
    for line in more {
        let Some(raised) = line_behind(*line, tables) else {
            return Ok(false);
        };
        lines.push(raised)?;
    }
    Ok(true)
}

// Appends line tables, and their numbers for units. Answers whether these fit.
fn join_lines<'a>(
    tables: &mut Vec<TableRows<'a>>,
    lines: &mut Vec<Option<usize>>,
    more: &mut Vec<TableRows<'a>>,
    more_lines: &[Option<usize>],
) -> Result<bool, NoMemory>
    ensures tables { IfOk result (λ fits. fits ≡ true → tables.new.items ≡ tables.old.items ++ more.old.items) }
    ensures lines { IfOk result (λ fits. fits ≡ true
        → lines.new.items ≡ lines.old.items ++ map (option_map (λ k. length tables.old.items + k)) more_lines.now) }
{
    let before = tables.as_slice().len();
    tables.append(more)?;
    add_lines(lines, more_lines, before)
}

// The row of a list whose operands stand behind so many others.
fn row_behind(row: &ListRow, operands: usize) -> Option<ListRow>
    ensures { IfSome result (λ w. w ≡ raised operands row.now) }
{
    let first = operands.checked_add(row.first)?;
    let last = operands.checked_add(row.last)?;
    Some(ListRow {
        from: row.from,
        end: row.end,
        first,
        last,
        unit: row.unit,
        plain: row.plain,
    })
}

// Appends rows of lists, whose operands stand behind so many others. Answers whether all fit.
fn add_rows(rows: &mut Vec<ListRow>, more: &[ListRow], operands: usize) -> Result<bool, NoMemory>
    ensures { IfOk result (λ fits. fits ≡ true → rows.new.items ≡ rows.old.items ++ map (raised operands) more.now) }
{
    for row in more {
        let Some(raised) = row_behind(row, operands) else {
            return Ok(false);
        };
        rows.push(raised)?;
    }
    Ok(true)
}

// Appends lists. Answers whether the numbers of their operands fit.
fn join_lists(lists: &mut Lists, more: &mut Lists) -> Result<bool, NoMemory>
    ensures { IfOk result (λ fits. fits ≡ true → JoinsLists lists.old more.old lists.new) }
{
    let before = lists.operands.len();
    lists.operands.append(&mut more.operands)?;
    lists.slots.append(&mut more.slots)?;
    add_rows(&mut lists.rows, &more.rows, before)
}

/// What the values of two stretches name, as one, if the second begins where the first ends, and the numbers fit.
pub(crate) fn joined<'a>(
    front: Stretch<'a>,
    next: Stretch<'a>,
) -> Result<Option<Stretch<'a>>, NoMemory>
    ensures { (s : _) (raw : _) (file : _) → IsStretch s raw file front.entry → IsStretch s raw file next.entry
        → IfOk result (λ both. IfSome both (IsStretch s raw file)) }
{
    if front.end != next.first {
        return Ok(None);
    }
    let mut refs = front.refs;
    let mut starts = front.starts;
    let mut more_refs = next.refs;
    if !join_refs(&mut refs, &mut starts, &mut more_refs, &next.starts)? {
        return Ok(None);
    }
    let mut tables = front.tables;
    let mut lines = front.lines;
    let mut more_tables = next.tables;
    if !join_lines(&mut tables, &mut lines, &mut more_tables, &next.lines)? {
        return Ok(None);
    }
    let mut lists = front.lists;
    let mut more_lists = next.lists;
    if !join_lists(&mut lists, &mut more_lists)? {
        return Ok(None);
    }
    Ok(Some(Stretch {
        first: front.first,
        end: next.end,
        refs,
        starts,
        tables,
        lines,
        lists,
    }))
}
