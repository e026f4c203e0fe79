//! Finds the only kind of token that can come at an offset of a text. A table of the forms of a text (Core spec 6.4 to
//! 6.6) is followed through the tokens before the offset.
//!
//! Nothing here has a contract: it decides only the words of the line of detail. A test replaces the token at the
//! offset by tokens of each kind, and reads the text again.

use std::fmt;
use wm_tokens::lexeme::{Lexeme, next_token};

/// A keyword that may be the only one to come.
#[derive(Clone, Copy, PartialEq, Eq)]
pub enum Keyword {
    Module,
    Func,
    Type,
    Param,
    Result,
    Local,
    Mut,
    Funcref,
}

impl Keyword {
    /// Returns the keyword as it is in a text.
    pub fn word(self) -> &'static str {
        match self {
            Keyword::Module => "module",
            Keyword::Func => "func",
            Keyword::Type => "type",
            Keyword::Param => "param",
            Keyword::Result => "result",
            Keyword::Local => "local",
            Keyword::Mut => "mut",
            Keyword::Funcref => "funcref",
        }
    }
}

/// The only kind of token that may come.
#[derive(Clone, Copy, PartialEq, Eq)]
pub enum Expected {
    /// An opening parenthesis, and the keyword that must follow it if one alone may.
    Open(Option<Keyword>),
    Close,
    Keyword(Keyword),
    String,
    Integer,
    /// The end of the text.
    End,
}

impl fmt::Display for Expected {
    fn fmt<W: fmt::Write>(&self, f: &mut fmt::Formatter<W>) -> fmt::Result {
        match self {
            Expected::Open(None) => f.write_str("`(`"),
            Expected::Open(Some(keyword)) => write!(f, "`({}`", keyword.word()),
            Expected::Close => f.write_str("`)`"),
            Expected::Keyword(keyword) => write!(f, "`{}`", keyword.word()),
            Expected::String => f.write_str("a string"),
            Expected::Integer => f.write_str("an integer"),
            Expected::End => f.write_str("the end of the text"),
        }
    }
}

/// A part of a form: a token, or a form inside it.
#[derive(Clone, Copy, PartialEq, Eq)]
enum Part {
    Id,
    /// The identifier of a parameter or a local. One value type follows it.
    OwnId,
    Integer,
    /// An integer or an identifier.
    Index,
    /// An integer or a float.
    Number,
    String,
    ValueType,
    /// The keyword `func` before the functions of an element segment.
    Func,
    /// The keyword `funcref`, or the older one for it.
    Funcref,
    /// A keyword of a body, or an operand that needs no part of its own.
    Code,
    Module,
    Field,
    FuncType,
    TypeUse,
    /// Parameters, which may have identifiers.
    Params,
    /// Parameters without identifiers.
    CallParams,
    Results,
    Locals,
    /// The result of a block.
    BlockResult,
    ImportDesc,
    ExportDesc,
    /// A value type, or `(mut ..)`.
    GlobalType,
    /// A constant instruction, in parentheses or not.
    Constant,
    /// The offset of a segment. A passive one has none, but may begin with a string or the keyword `func`.
    Offset,
}

/// How often a part comes.
#[derive(Clone, Copy)]
enum Slot {
    Once(Part),
    Optional(Part),
    Many(Part),
}

/// Pairs of a keyword and of the parts inside its form, in order.
type Forms = &'static [(&'static str, &'static [Slot])];

const TEXT: &[Slot] = &[Slot::Once(Part::Module)];

const MODULE: &[Slot] = &[Slot::Optional(Part::Id), Slot::Many(Part::Field)];

const TYPE: &[Slot] = &[Slot::Optional(Part::Id), Slot::Once(Part::FuncType)];

const FUNC_TYPE: &[Slot] = &[Slot::Many(Part::Params), Slot::Many(Part::Results)];

const PARAMS: &[Slot] = &[Slot::Optional(Part::OwnId), Slot::Many(Part::ValueType)];

const TYPES: &[Slot] = &[Slot::Many(Part::ValueType)];

const ONE_TYPE: &[Slot] = &[Slot::Once(Part::ValueType)];

const INDEX: &[Slot] = &[Slot::Once(Part::Index)];

const IMPORT: &[Slot] = &[
    Slot::Once(Part::String),
    Slot::Once(Part::String),
    Slot::Once(Part::ImportDesc),
];

const IMPORTED_FUNC: &[Slot] = &[
    Slot::Optional(Part::Id),
    Slot::Once(Part::TypeUse),
    Slot::Many(Part::Params),
    Slot::Many(Part::Results),
];

const IMPORTED_GLOBAL: &[Slot] = &[Slot::Optional(Part::Id), Slot::Once(Part::GlobalType)];

const FUNC: &[Slot] = &[
    Slot::Optional(Part::Id),
    Slot::Once(Part::TypeUse),
    Slot::Many(Part::Params),
    Slot::Many(Part::Results),
    Slot::Many(Part::Locals),
    Slot::Many(Part::Code),
];

const TABLE: &[Slot] = &[
    Slot::Optional(Part::Id),
    Slot::Once(Part::Integer),
    Slot::Optional(Part::Integer),
    Slot::Once(Part::Funcref),
];

const MEMORY: &[Slot] = &[
    Slot::Optional(Part::Id),
    Slot::Once(Part::Integer),
    Slot::Optional(Part::Integer),
];

const GLOBAL: &[Slot] = &[
    Slot::Optional(Part::Id),
    Slot::Once(Part::GlobalType),
    Slot::Once(Part::Constant),
];

const EXPORT: &[Slot] = &[Slot::Once(Part::String), Slot::Once(Part::ExportDesc)];

const ELEM: &[Slot] = &[
    Slot::Optional(Part::Index),
    Slot::Once(Part::Offset),
    Slot::Optional(Part::Func),
    Slot::Many(Part::Index),
];

const DATA: &[Slot] = &[
    Slot::Optional(Part::Index),
    Slot::Once(Part::Offset),
    Slot::Many(Part::String),
];

const OFFSET: &[Slot] = &[Slot::Once(Part::Constant)];

const INTEGER: &[Slot] = &[Slot::Once(Part::Integer)];

const NUMBER: &[Slot] = &[Slot::Once(Part::Number)];

const FIELDS: Forms = &[
    ("type", TYPE),
    ("import", IMPORT),
    ("func", FUNC),
    ("table", TABLE),
    ("memory", MEMORY),
    ("global", GLOBAL),
    ("export", EXPORT),
    ("start", INDEX),
    ("elem", ELEM),
    ("data", DATA),
];

const IMPORTS: Forms = &[
    ("func", IMPORTED_FUNC),
    ("table", TABLE),
    ("memory", MEMORY),
    ("global", IMPORTED_GLOBAL),
];

const EXPORTS: Forms = &[
    ("func", INDEX),
    ("table", INDEX),
    ("memory", INDEX),
    ("global", INDEX),
];

const CONSTANTS: Forms = &[
    ("i32.const", INTEGER),
    ("i64.const", INTEGER),
    ("f32.const", NUMBER),
    ("f64.const", NUMBER),
    ("global.get", INDEX),
    // of `--old-words`; without it the text is refused at this token
    ("get_global", INDEX),
];

const OFFSETS: Forms = &[
    ("offset", OFFSET),
    ("i32.const", INTEGER),
    ("i64.const", INTEGER),
    ("f32.const", NUMBER),
    ("f64.const", NUMBER),
    ("global.get", INDEX),
    // of `--old-words`; without it the text is refused at this token
    ("get_global", INDEX),
];

/// Pairs of an instruction and of the parts after its keyword: its operands, and the rest of the body.
const CODE: Forms = &[
    ("i32.const", AFTER_CONST),
    ("i64.const", AFTER_CONST),
    ("memory.init", AFTER_CONST),
    ("data.drop", AFTER_CONST),
    ("table.init", AFTER_CONST),
    ("elem.drop", AFTER_CONST),
    ("block", AFTER_BLOCK),
    ("loop", AFTER_BLOCK),
    ("if", AFTER_BLOCK),
    ("call_indirect", AFTER_CALL),
];

const AFTER_CONST: &[Slot] = &[Slot::Once(Part::Integer), Slot::Many(Part::Code)];

const AFTER_BLOCK: &[Slot] = &[
    Slot::Optional(Part::Id),
    Slot::Optional(Part::BlockResult),
    Slot::Many(Part::Code),
];

const AFTER_CALL: &[Slot] = &[
    Slot::Once(Part::TypeUse),
    Slot::Many(Part::CallParams),
    Slot::Many(Part::Results),
    Slot::Many(Part::Code),
];

const AFTER_OTHER: &[Slot] = &[Slot::Many(Part::Code)];

/// Returns what is inside the form with this keyword.
fn inside(forms: Forms, keyword: &[u8]) -> Option<&'static [Slot]> {
    for (word, items) in forms {
        if word.as_bytes() == keyword {
            return Some(items);
        }
    }
    None
}

/// A token, or an opening parenthesis with the keyword after it.
#[derive(Clone, Copy)]
enum Next<'a> {
    String,
    Atom(&'a [u8]),
    Form(&'a [u8]),
}

fn is_id(atom: &[u8]) -> bool {
    atom.starts_with(b"$")
}

fn is_word(atom: &[u8]) -> bool {
    matches!(atom, [b'a'..=b'z', ..])
}

impl Part {
    /// Returns the only form that this part may be: its keyword, and what is inside it.
    fn only_form(self) -> Option<(Keyword, &'static [Slot])> {
        match self {
            Part::Module => Some((Keyword::Module, MODULE)),
            Part::FuncType => Some((Keyword::Func, FUNC_TYPE)),
            Part::TypeUse => Some((Keyword::Type, INDEX)),
            Part::Params => Some((Keyword::Param, PARAMS)),
            Part::CallParams => Some((Keyword::Param, TYPES)),
            Part::Results => Some((Keyword::Result, TYPES)),
            Part::Locals => Some((Keyword::Local, PARAMS)),
            Part::BlockResult => Some((Keyword::Result, ONE_TYPE)),
            Part::GlobalType => Some((Keyword::Mut, ONE_TYPE)),
            _ => None,
        }
    }

    /// Returns the forms that this part may be, if they are several.
    fn forms(self) -> Forms {
        match self {
            Part::Field => FIELDS,
            Part::ImportDesc => IMPORTS,
            Part::ExportDesc => EXPORTS,
            Part::Constant => CONSTANTS,
            Part::Offset => OFFSETS,
            _ => &[],
        }
    }

    /// Returns what is inside the form with this keyword, if this part may be that form.
    fn inside(self, keyword: &[u8]) -> Option<&'static [Slot]> {
        match self.only_form() {
            Some((only, items)) => (only.word().as_bytes() == keyword).then_some(items),
            None => inside(self.forms(), keyword),
        }
    }

    /// Whether the part may be this token or begin with this form.
    fn begins(self, next: Next<'_>) -> bool {
        let atom = match next {
            Next::Form(word) => return self.inside(word).is_some(),
            Next::String => return self == Part::String || self == Part::Offset,
            Next::Atom(atom) => atom,
        };
        match self {
            Part::Id | Part::OwnId => is_id(atom),
            Part::Integer => !is_id(atom) && !is_word(atom),
            Part::Index => !is_word(atom),
            Part::Number => !is_id(atom),
            Part::ValueType | Part::GlobalType | Part::Funcref => is_word(atom),
            Part::Func | Part::Offset => atom == b"func".as_slice(),
            Part::Constant => inside(CONSTANTS, atom).is_some(),
            Part::Code => true,
            _ => false,
        }
    }

    /// Returns what follows this atom in its form, if that depends on the atom.
    fn after(self, atom: &[u8]) -> Option<&'static [Slot]> {
        match self {
            Part::OwnId => Some(ONE_TYPE),
            Part::Constant => inside(CONSTANTS, atom),
            Part::Code => Some(inside(CODE, atom).unwrap_or(AFTER_OTHER)),
            _ => None,
        }
    }

    /// Returns the token that this part must begin with. `None` if several kinds may begin it.
    fn first(self) -> Option<Expected> {
        match self {
            Part::Integer => Some(Expected::Integer),
            Part::String => Some(Expected::String),
            Part::Funcref => Some(Expected::Keyword(Keyword::Funcref)),
            Part::GlobalType | Part::Constant => None,
            _ => match self.only_form() {
                Some((keyword, _)) => Some(Expected::Open(Some(keyword))),
                None if self.forms().is_empty() => None,
                None => Some(Expected::Open(None)),
            },
        }
    }
}

/// Returns the part that comes next, and what may come after it. `None` if no part here can begin
/// with it.
fn next_part(items: &'static [Slot], next: Next<'_>) -> Option<(Part, &'static [Slot])> {
    let mut rest = items;
    while let [item, more @ ..] = rest {
        match *item {
            Slot::Once(part) => return part.begins(next).then_some((part, more)),
            Slot::Optional(part) if part.begins(next) => return Some((part, more)),
            Slot::Many(part) if part.begins(next) => return Some((part, rest)),
            _ => rest = more,
        }
    }
    None
}

/// Returns the keyword that must follow an opening parenthesis here. `None` if several may, or none.
fn only_keyword(items: &[Slot]) -> Option<Expected> {
    let mut only = None;
    for item in items {
        let (part, is_last) = match *item {
            Slot::Once(part) => (part, true),
            Slot::Optional(part) | Slot::Many(part) => (part, false),
        };
        match part.only_form() {
            Some((keyword, _)) if only.is_none() => only = Some(Expected::Keyword(keyword)),
            None if part.forms().is_empty() => {}
            _ => return None,
        }
        if is_last {
            return only;
        }
    }
    only
}

/// The most forms that are open at once, with the text as the outermost.
const MAX_OPEN: usize = 5;

/// The open forms of a text, the outermost first.
#[derive(Clone, Copy)]
struct OpenForms {
    /// The parts that may still come in each form.
    left: [&'static [Slot]; MAX_OPEN],
    /// The index of the innermost form.
    innermost: usize,
    /// Whether the last token is an opening parenthesis.
    is_opening: bool,
}

impl OpenForms {
    /// Adds a token. Returns `None` if it cannot come.
    fn add(&mut self, token: Lexeme<'_>) -> Option<()> {
        let next = match token {
            Lexeme::Atom(atom) if self.is_opening => Next::Form(atom),
            _ if self.is_opening => return None,
            Lexeme::Atom(atom) => Next::Atom(atom),
            Lexeme::String(_) => Next::String,
            Lexeme::Open => {
                self.is_opening = true;
                return Some(());
            }
            Lexeme::Close => return self.close(),
        };
        let innermost = self.innermost;
        let (part, after) = next_part(*self.left.get(innermost)?, next)?;
        let left = match next {
            Next::Atom(atom) => part.after(atom).unwrap_or(after),
            _ => after,
        };
        *self.left.get_mut(innermost)? = left;
        match next {
            Next::Form(keyword) => self.open(part.inside(keyword)?),
            _ => Some(()),
        }
    }

    /// Opens a form.
    fn open(&mut self, items: &'static [Slot]) -> Option<()> {
        let inner = self.innermost.checked_add(1)?;
        *self.left.get_mut(inner)? = items;
        self.innermost = inner;
        self.is_opening = false;
        Some(())
    }

    /// Closes the innermost form. Returns `None` if more must come in it. An offset need not: a segment may be passive.
    fn close(&mut self) -> Option<()> {
        let left = *self.left.get(self.innermost)?;
        if left.iter().any(|item| matches!(item, Slot::Once(part) if *part != Part::Offset)) {
            return None;
        }
        self.innermost = self.innermost.checked_sub(1)?;
        Some(())
    }

    /// Returns the only kind of token that may come next.
    fn expected(&self) -> Option<Expected> {
        let left = *self.left.get(self.innermost)?;
        match left {
            _ if self.is_opening => only_keyword(left),
            [] if self.innermost == 0 => Some(Expected::End),
            [] => Some(Expected::Close),
            [Slot::Once(part), ..] => part.first(),
            _ => None,
        }
    }
}

/// Returns the only kind of token that may come at this offset. Returns `None` if several may, or if the tokens before
/// it begin no module. It reads only what is before the offset, once.
pub fn expected_at(text: &[u8], at: usize) -> Option<Expected> {
    let mut forms = OpenForms {
        left: [TEXT; MAX_OPEN],
        innermost: 0,
        is_opening: false,
    };
    let mut rest = text.get(..at)?;
    while let Some((token, more)) = next_token(rest) {
        forms.add(token)?;
        rest = more;
    }
    forms.expected()
}
