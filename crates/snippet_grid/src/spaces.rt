//! Spaces, many at once.
ghost use Rattle.std.specs.Prelude.{◌≡◌, ◌≤◌, ◌++◌, replicate, OnOk, string_bytes};
ghost use Rattle.snippet_grid.specs.Runs.{BeginsWith};

use std::alloc::AllocError;

/// Spaces to take a part of.
const SPACES: &str = "                                                                ";

/// Adds the first of some spaces.
#[inline(always)]
fn push_part(out: &mut String, spaces: &str, count: usize) -> Result<(), AllocError>
    requires spaces { spaces.now ≡ replicate 64 32 }
    requires within { count ≤ 64 }
    ensures text { OnOk result (string_bytes out.new ≡ string_bytes out.old ++ replicate count 32) }
    ensures grows { BeginsWith (string_bytes out.old) (string_bytes out.new) }
{
    out.push_str(&spaces[..count])?;
    Ok(())
}

/// Adds spaces.
#[inline(always)]
pub(crate) fn push_spaces(out: &mut String, count: usize) -> Result<(), AllocError>
    ensures text { OnOk result (string_bytes out.new ≡ string_bytes out.old ++ replicate count 32) }
    ensures grows { BeginsWith (string_bytes out.old) (string_bytes out.new) }
{
    // Strokes often stand one cell apart.
    if count == 1 {
        return out.push(' ');
    }
    let mut left = count;
    while left > 64 {
        push_part(out, SPACES, 64)?;
        left -= 64;
    }
    push_part(out, SPACES, left)?;
    Ok(())
}
