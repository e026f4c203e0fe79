//! Names that lie whole in a piece.

ghost use Rattle.std.specs.Prelude.{◌≤◌, IfSome, length};
ghost use Rattle.wm_shortcuts.specs.exact.WholeNames.{NameLies};

/// Returns the index after the name whose length is at `from`. Returns `None` unless the name has 1 to 127 bytes, with
/// its length in one byte, and ends by `end`.
#[inline(always)]
pub(crate) fn name_end(bytes: &[u8], from: usize, end: usize) -> Option<usize>
    requires { end ≤ length bytes.now }
    ensures lies { IfSome result (λ stop. NameLies bytes.now from stop) }
    ensures within { IfSome result (λ stop. stop ≤ end) }
{
    if from >= end {
        return None;
    }
    let len = bytes[from];
    if len == 0 || len >= 0x80 {
        return None;
    }
    let stop = from + 1 + usize::from(len);
    if stop > end {
        return None;
    }
    Some(stop)
}
