//! What is known of tops and spaces, by their numbers among all files.

ghost use Rattle.std.specs.Prelude.{◌≡◌, ℕ, ◌<◌, ◌^◌, length, IfOk};
ghost use Rattle.dwz_layout_order.specs.Marks.{flag_at, mark_at, mark_of, stays_in};

use dwz_groups::Tops;
use dwz_model::NoMemory;
use dwz_plan::{Home, Plan};
use std::alloc::Global;

/// What is known of a top.
#[derive(Clone, Copy, Debug, PartialEq, Eq)]
pub struct TopMark {
    /// Whether it stays in its unit.
    pub stays: bool,
    /// Whether an operand of an expression that is a ULEB128 number names an entry of it.
    pub pinned: bool,
}

/// What is known of tops and spaces, by their numbers among all files.
#[derive(Clone, Copy)]
pub struct Marks<'a> {
    /// Of each top.
    pub tops: &'a [TopMark],
    /// Of each space, whether an operand of an expression that is a ULEB128 number names it.
    pub spaces: &'a [bool],
}

// Whether a top stays where it is.
#[inline(always)]
fn stays(home: Home) -> bool
    ensures { result ≡ stays_in home }
{
    match home {
        Home::Common(_) => false,
        Home::Local(_) => false,
        Home::Stay => true,
    }
}

/// What is known of each top.
pub fn marks_of(alloc: Global, tops: &Tops, plan: &Plan) -> Result<Vec<TopMark>, NoMemory>
    requires many { length plan.now.homes ≡ length tops.now.rows }
    requires few { length tops.now.rows < 2 ^ 32 }
    ensures len { IfOk result (λ marks. length marks.items ≡ length tops.now.rows) }
    ensures each { IfOk result (λ marks. (k : ℕ) → k < length tops.now.rows
        → mark_at marks.items k ≡ mark_of tops.now.rows plan.now.homes k) }
{
    let rows = tops.rows.as_slice();
    let mut marks = Vec::with_capacity(alloc, rows.len())?;
    for (top, row) in rows.iter().enumerate() {
        marks.push(TopMark {
            stays: stays(plan.home(top as u32)),
            pinned: row.pinned,
        })?;
    }
    Ok(marks)
}

impl<'a> Marks<'a> {
    // What is known of a top.
    #[inline(always)]
    pub(crate) fn top(&self, top: u32) -> TopMark
        ensures { result ≡ mark_at self.now.tops.now top }
    {
        match self.tops.get(top as usize) {
            Some(mark) => *mark,
            None => TopMark {
                stays: true,
                pinned: false,
            },
        }
    }

    // Whether a space is named by such an operand.
    #[inline(always)]
    pub(crate) fn space(&self, space: u32) -> bool
        ensures { result ≡ flag_at self.now.spaces.now space }
    {
        match self.spaces.get(space as usize) {
            Some(flag) => *flag,
            None => false,
        }
    }
}
