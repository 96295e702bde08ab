//! Lines, and the numbers in them.

ghost use Rattle.std.specs.Prelude.{◌≡◌, IfOk, decimal, map};
ghost use Rattle.dwz_text.specs.Lines;

use dwz_model::NoMemory;
use std::alloc::Global;

/// These parts, and the end of the line.
pub fn line(alloc: Global, parts: &[&[u8]]) -> Result<Vec<u8>, NoMemory>
    ensures { IfOk result (λ v. v.items ≡ Lines.line (map (λ p. p.now) parts.now)) }
{
    let mut text = Vec::new(alloc);
    for part in parts {
        text.extend_from_slice(part)?;
    }
    text.push(b'\n')?;
    Ok(text)
}

/// A number in decimal.
pub fn decimal(alloc: Global, n: u64) -> Result<Vec<u8>, NoMemory>
    ensures { IfOk result (λ v. v.items ≡ decimal n) }
{
    Ok(format!(in alloc; "{n}")?.into_bytes())
}

/// A number in lower-case hexadecimal.
pub fn hexadecimal(alloc: Global, n: u64) -> Result<Vec<u8>, NoMemory>
    ensures { IfOk result (λ v. v.items ≡ Lines.hexadecimal n) }
{
    Ok(format!(in alloc; "{n:x}")?.into_bytes())
}
