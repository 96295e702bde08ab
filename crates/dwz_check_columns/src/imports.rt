//! What units import, by numbers among the units of both files and of the common one.

ghost use Rattle.std.specs.Prelude.{◌≡◌, ◌+◌, ◌<◌, ◌^◌, ◌++◌, All, OnOk, length, map};
ghost use Rattle.dwz_check_columns.specs.Drawn.{among_all, imports_among};
ghost use Rattle.dwz_imports.specs.Stored.{edge, edges_of};

use dwz_groups::{Edge, Groups};
use dwz_model::NoMemory;

// The number among all units, of a unit with a number among `own` ones, the first of which has the number `first`, and the common ones
// behind these, the first of which has the number `common`.
fn number_among(own: u32, first: u32, common: u32, part: u32) -> u32
    requires first { first + part < 2 ^ 32 }
    requires common { common + part < 2 ^ 32 }
    ensures { result ≡ among_all own first common part }
{
    if part < own {
        first + part
    } else {
        common + (part - own)
    }
}

// Adds units under a key.
fn put_list(
    key: u32,
    parts: &[u32],
    own: u32,
    first: u32,
    common: u32,
    edges: &mut Vec<Edge>,
) -> Result<(), NoMemory>
    requires first { All (λ n. first + n < 2 ^ 32) parts.now }
    requires common { All (λ n. common + n < 2 ^ 32) parts.now }
    ensures { OnOk result (edges.new.items ≡ edges.old.items ++ map (edge key) (map (among_all own first common) parts.now)) }
{
    for part in parts {
        edges.push(Edge {
            key,
            value: number_among(own, first, common, *part),
        })?;
    }
    Ok(())
}

/// Adds what the units of a file import, each list under its unit.
pub(crate) fn put_imports(
    lists: &Groups,
    own: u32,
    first: u32,
    common: u32,
    edges: &mut Vec<Edge>,
) -> Result<(), NoMemory>
    requires keys { first + length lists.now < 2 ^ 32 }
    requires first { All (All (λ n. first + n < 2 ^ 32)) lists.now }
    requires common { All (All (λ n. common + n < 2 ^ 32)) lists.now }
    ensures { OnOk result (edges.new.items ≡ edges.old.items ++ edges_of first (imports_among own first common lists.now)) }
{
    for n in 0..lists.len() {
        put_list(first + n as u32, lists.get(n), own, first, common, edges)?;
    }
    Ok(())
}
