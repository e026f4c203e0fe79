//! The command line as a value: the action, the options and the files.

ghost use Rattle.std.specs.Prelude.{◌≤◌, ◌^◌};

use clap::error::ErrorKind;
use std::alloc::AllocError;
use std::error::Error;
use std::fmt;
use wm_read::spellings::Spellings;
use wm_rules::Policy;
use wm_syntax::profile::Profile;

/// The action on the input.
#[derive(Clone, Copy, PartialEq, Eq, Debug)]
pub enum Action {
    /// Writes whether the input is a valid module.
    Check,
    /// Writes figures of the function bodies if the input is a valid module.
    Stats,
    /// Writes the canonical binary if the input is a valid module.
    Canon,
    /// Writes the module as text if the input is a valid module.
    Show,
    /// Reads the input as text, and writes the canonical binary of its module if that is valid.
    Build,
}

/// The byte that ends each name of a list.
#[derive(Clone, Copy, PartialEq, Eq, Debug)]
pub enum Ending {
    /// A line feed.
    Line,
    /// A zero byte.
    Zero,
}

impl Ending {
    ghost use Rattle.std.specs.Prelude.{◌≡◌};
    ghost use Rattle.wm_command.specs.Lists.{ending_byte};

    /// Returns the byte.
    pub fn byte(self) -> u8
        ensures { result ≡ ending_byte self }
    {
        match self {
            Ending::Line => b'\n',
            Ending::Zero => 0,
        }
    }
}

/// The inputs that a line names.
#[derive(Debug, Drop)]
pub enum Inputs<'a> {
    /// One file. `None` and `-` are standard input.
    One(Option<&'a str>),
    /// Several files, in this order.
    Several(Vec<&'a str>),
    /// The files whose names the list has. `-` is a list on standard input.
    Listed(&'a str, Ending),
}

/// The parsed command line.
#[derive(Debug, Drop)]
pub struct Line<'a> {
    pub action: Action,
    /// The instructions and value types that the module may use.
    pub profile: Profile,
    /// The most bytes that an input may have, at most 2^62.
    pub limit: u64,
    /// The limits on functions, locals and open blocks of the module.
    pub policy: Policy,
    /// The keywords that a text may use. Only `build` may have older ones.
    pub spellings: Spellings,
    /// The files to read. Only `check` and `stats` may have several, or a list.
    pub inputs: Inputs<'a>,
    /// The file to write. `None` and `-` are standard output. Only `canon`, `show` and `build` may have one.
    pub output: Option<&'a str>,
    /// Whether a refusal has no line of detail on standard error.
    pub quiet: bool,
    ghost in_range: { limit ≤ 2 ^ 62 },
}

/// The request that the arguments make.
#[derive(Debug, Drop)]
pub enum Request<'a> {
    /// An action on inputs.
    Run(Line<'a>),
    /// The meaning of this NAME, or `None` if there is no NAME.
    Explain(Option<&'a str>),
    /// The help.
    Help,
    /// The words of `--features`.
    Features,
}

/// Why the arguments ask for nothing.
#[derive(Debug, Drop)]
pub enum LineFault {
    /// The fault of `clap`, with its text. A request for help or for the version is one too.
    Parser(clap::Error),
    /// An unknown action, profile or feature, or a number that is malformed or out of range. Also a file or an option that
    /// the action does not take, and a NAME of `explain` that is missing or unknown.
    Words,
    /// Memory was refused.
    Memory,
}

impl LineFault {
    ghost use Rattle.std.specs.Prelude.{◌≡◌};
    ghost use Rattle.wm_command.specs.Codes.{fault_code};

    /// Returns the exit status: 0 for help or version, 4 if memory was refused, and 2 otherwise.
    pub fn code(&self) -> u8
        ensures { result ≡ fault_code self.now }
    {
        match self {
            LineFault::Parser(error) => match error.kind() {
                ErrorKind::OutOfMemory => 4,
                ErrorKind::DisplayHelp | ErrorKind::DisplayVersion => 0,
                _ => 2,
            },
            LineFault::Words => 2,
            LineFault::Memory => 4,
        }
    }
}

impl fmt::Display for LineFault {
    fn fmt<W: fmt::Write>(&self, f: &mut fmt::Formatter<W>) -> fmt::Result {
        match self {
            LineFault::Parser(error) => write!(f, "{error}"),
            LineFault::Words => f.write_str("bad words"),
            LineFault::Memory => f.write_str("out of memory"),
        }
    }
}

impl Error for LineFault {}

impl From<AllocError> for LineFault {
    ghost use Rattle.std.specs.Prelude.{◌≡◌};
    ghost use Rattle.wm_command.specs.declared.arguments.LineFault.TheVariants.{Memory};

    ghost from_gives = { λ _ e. e ≡ Memory };

    fn from(_error: AllocError) -> Self {
        LineFault::Memory
    }
}
