//! Names (Core spec 5.2.4).

ghost use Rattle.std.specs.Prelude.{◌↔◌, IsTrue, IsUtf8};

/// Whether the bytes are those of a name, that is, UTF-8 (Core spec 5.2.4).
pub fn is_name(bytes: &[u8]) -> bool
    ensures { IsTrue result ↔ IsUtf8 bytes.now }
{
    simdutf8::is_utf8(bytes)
}
