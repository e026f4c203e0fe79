//! Valid limits. Core spec 3.2.1.

ghost use Rattle.std.specs.Prelude.{◌≡◌, ◌^◌};
ghost use Rattle.wm_rules.specs.exact.Spaces.{is_within};

use wm_syntax::types::Limits;

const MOST_PAGES: u32 = 65536;

// Whether the limits of a table are valid. Every u32 is in its range. Core spec 3.2.3.
pub(crate) fn is_table_size(limits: Limits) -> bool
    ensures { result ≡ is_within (2 ^ 32) limits }
{
    match limits.max {
        None => true,
        Some(max) => limits.min <= max,
    }
}

// Whether the limits of a memory, in pages, are valid. Core spec 3.2.4.
pub(crate) fn is_memory_size(limits: Limits) -> bool
    ensures { result ≡ is_within (2 ^ 16) limits }
{
    if limits.min > MOST_PAGES {
        return false;
    }
    match limits.max {
        None => true,
        Some(max) => max <= MOST_PAGES && limits.min <= max,
    }
}
