//! Whether a text stands twice.
ghost use Rattle.std.specs.Prelude.{◌≡◌, map, IfOk};
ghost use Rattle.xa_profile.specs.Request.{has_twice};

use std::alloc::{AllocError, Global};
use std::collections::BTreeSet;

/// Whether one of the texts stands twice.
pub(crate) fn has_twice(alloc: Global, texts: &[&str]) -> Result<bool, AllocError>
    ensures { IfOk result (λ twice. twice ≡ has_twice (map (λ text. text.now) texts.now)) }
{
    let mut seen = BTreeSet::new(alloc);
    for text in texts {
        if !seen.insert(*text)? {
            return Ok(true);
        }
    }
    Ok(false)
}
