//! What the work of a run comes to.

ghost use Rattle.std.specs.Prelude.{◌≡◌, ◌≤◌, IfOk, List, ℕ, map};
ghost use Rattle.dwz_run_course.specs.Outcome.{Giving, Outcome};
ghost use Rattle.dwz_words.specs.declared.options.Options.{Options as Asked};

use dwz_model::NoMemory;
use std::alloc::Global;

/// The pure work of a run, but for the call that does it: that is a closure, which may hold what it needs beside options and contents, as
/// threads.
pub trait Work {
    /// The contents of the two files of a demonstration, by how many units each has.
    ghost makes: { ℕ → List (List ℕ) };

    /// What comes of options and the contents of the files that they name.
    ghost gives: { Giving };

    /// The two files of a demonstration with n units each.
    fn make(&self, alloc: Global, n: u32) -> Result<Vec<Vec<u8>>, NoMemory>
        requires { (2 ≤ n) × (n ≤ 10000) }
        ensures { IfOk result (λ v. map (λ c. c.items) v.items ≡ makes n) };

    /// One thing at most comes of them.
    ghost one: { (o : Asked) (contents : List (List ℕ)) (a b : Outcome) → gives o contents a → gives o contents b → a ≡ b };
}
