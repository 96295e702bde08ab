//! Contents are bytes.

ghost use Rattle.std.specs.Prelude.{◌<◌, ◌^◌, All, map};
ghost use Rattle.dwz_run_course.specs.Gets.{AreOfBytes};

// What is in a slice of bytes is known where it is passed.
fn look_at(_bytes: &[u8])
    ensures { All (λ byte. byte < 2 ^ 8) _bytes.now }
{}

/// Looks at all contents. So they are known to be bytes.
pub(crate) fn look_at_all(contents: &[Vec<u8>])
    ensures { AreOfBytes (map (λ c. c.items) contents.now) }
{
    for content in contents {
        look_at(content.as_slice());
    }
}
