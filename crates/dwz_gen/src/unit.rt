//! A unit of a demonstration, and the abbreviation table of all units (DWARF 5, 7.5).

ghost use Rattle.std.specs.Prelude.{◌≡◌, ◌++◌, OnOk};
ghost use Rattle.dwz_gen.specs.Demo.{demo_unit_bytes};

use dwz_bytes::put_fixed;
use dwz_model::NoMemory;

/// The abbreviation table: a line for each declaration, with its code, its tag and whether there are children, and then the name
/// and form of each attribute.
pub(crate) const ABBREVS: &[u8] = b"\
    \x01\x11\x01\x13\x05\0\0\
    \x02\x24\0\x03\x08\x0b\x0b\x3e\x0b\0\0\
    \x03\x13\x01\x03\x08\x0b\x0b\0\0\
    \x04\x0d\0\x03\x08\x49\x13\x38\x0b\0\0\
    \x05\x0f\0\x0b\x0b\x49\x13\0\0\
    \x06\x27\0\x49\x13\x1c\x06\0\0\
    \x07\x27\0\x03\x08\x49\x13\x1c\x06\0\0\
    \0";

// What is the same in all units up to the value of the constant without a name: the header, and a line for each entry.
const FRONT: &[u8] = b"\
    \x69\0\0\0\x05\0\x01\x08\0\0\0\0\
    \x01\x0c\0\
    \x02int\0\x04\x05\
    \x03node\0\x10\
    \x04next\0\x34\0\0\0\0\
    \x04item\0\x0f\0\0\0\x08\
    \0\
    \x05\x08\x16\0\0\0\
    \x06\x0f\0\0\0";

// The named constant, up to its value.
const NAMED: &[u8] = b"\x07xxxxxxxxxxxxxxxxxxxxxxxxxxxxxxx\0\x0f\0\0\0";

/// Appends a unit, by the value of the constant that has no name, and that of the named one.
pub(crate) fn put_unit(out: &mut Vec<u8>, own: u32, shared: u32) -> Result<(), NoMemory>
    ensures { OnOk result (out.new.items ≡ out.old.items ++ demo_unit_bytes own shared) }
{
    out.extend_from_slice(FRONT)?;
    put_fixed(out, 4, own as u64)?;
    out.extend_from_slice(NAMED)?;
    put_fixed(out, 4, shared as u64)?;
    out.push(0)?;
    Ok(())
}
