//! What is the same along images means the same.

ghost use Rattle.dwz_def_cross.specs.CrossLaws.{CrossLaw};

/// A law on the units of two files, with places of any type: what was there, and what is there now, with the common file that it refers to.
/// Where that is the same along a function of places, unit for unit, the two mean the same.
pub fn cross_laws<P, Q>()
    ensures { CrossLaw P Q }
{}
