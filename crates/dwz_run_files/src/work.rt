//! What all files have together.

use crate::PreparedFiles;
use dwz_layout::Layout;

/// Files that are laid, and how their entries are counted.
#[derive(Clone, Copy)]
pub(crate) struct LaidRun<'w, 'u, 'a> {
    /// The files, as they were prepared.
    pub(crate) prepared: &'w PreparedFiles<'u, 'a>,
    /// Where all units and entries stand after.
    pub(crate) layout: &'w Layout,
    /// For each file the number of its first entry among those of all files.
    pub(crate) starts: &'w [u32],
    /// For each top the number of its entry among those of all files.
    pub(crate) tops: &'w [u32],
}
