//! What is known of units and of the partial units of a finished common file.

use dwz_groups::Groups;
use dwz_model::Numbers;

/// What is known of the tops of files, which come first, and of a finished common file; of the units of the files, and of the partial units
/// of the common file, which are numbered by themselves, from 0. Lists have their numbers in any order, and as often as they like.
#[derive(Drop)]
pub struct Rows {
    /// For each top the number of its class, which is that of some top. Of a top of a unit that may move and a top of the common file it is
    /// the same exactly if they are alike.
    pub classes: Numbers,
    /// For each unit its tops that may move.
    pub unit_tops: Groups,
    /// For each unit the name lists of its spaces, by number.
    pub unit_names: Groups,
    /// For each partial unit its tops.
    pub part_tops: Groups,
    /// For each partial unit the name lists of its spaces, by number.
    pub part_names: Groups,
    /// For each partial unit those that it refers to.
    pub part_targets: Groups,
    /// How many name lists there are.
    pub names: u32,
}
