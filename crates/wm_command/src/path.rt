//! The path that a name on the command line stands for.

ghost use Rattle.std.specs.Prelude.{◌≡◌, option_map};
ghost use Rattle.wm_command.specs.Lines.{path_of};

/// Returns the path that the name of a file stands for, or `None` for standard input or output: `name` is absent or
/// `-`.
pub fn path_by(name: Option<&str>) -> Option<&str>
    ensures { option_map (λ s. s.now) result ≡ path_of (option_map (λ s. s.now) name.entry) }
{
    match name {
        Some("-") => None,
        _ => name,
    }
}
