//! What is known of tops and of spaces, together.

ghost use Rattle.dwz_layout_input.specs.Pinned.{MarksLaw};

/// Where it is known of each top whether it stays and is pinned, and of each space whether it is pinned, all is known that the order of
/// the units after asks.
pub fn space_mark_laws()
    ensures { MarksLaw }
{}
