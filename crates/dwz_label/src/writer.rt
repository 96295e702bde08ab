//! What writes labels.

ghost use Rattle.std.specs.Prelude.{◌≡◌, ◌<◌, ◌++◌, OnOk, ℕ, List};

use dwz_model::NoMemory;

/// What writes labels, each by itself: so that several threads may.
pub trait LabelWriter {
    /// Rows that are used again from one label to the next, for the room that they have.
    type Scratch: Drop + Send;

    // How many there are, and each.
    ghost count: { Self → ℕ };

    ghost label: { Self → ℕ → List ℕ };

    /// Rows to begin with, one for each thread.
    fn room(&self) -> Self::Scratch;

    /// Appends the label with that number. After an error nothing is said of the bytes.
    fn put_label(
        &self,
        room: &mut Self::Scratch,
        out: &mut Vec<u8>,
        n: usize,
    ) -> Result<(), NoMemory>
        requires { n < count self.now }
        ensures { OnOk result (out.new.items ≡ out.old.items ++ label self.now n) };
}
