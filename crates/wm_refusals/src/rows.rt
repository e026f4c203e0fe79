//! The rows of the tables: how a line is read, and the row of a NAME.

ghost use Rattle.std.specs.Prelude.{◌≡◌, Contains, IfSome};
ghost use Rattle.std.specs.Str.Lines.{lines};
ghost use Rattle.wm_refusals.specs.Rows.{IsRowOfModule, IsRowOfText, line_of};

use crate::tables::{OF_MODULES, OF_TEXTS, OTHERS};
use std::fmt;

/// A row of a table.
#[derive(Clone, Copy)]
pub struct Row<'a> {
    pub name: &'a str,
    pub means: &'a str,
    pub section: &'a str,
    pub input: &'a str,
    pub advice: &'a str,
}

impl<'a> Row<'a> {
    /// Reads a line of a table. Returns `None` if it has fewer than five parts.
    pub fn of(line: &'a str) -> Option<Row<'a>>
        ensures { IfSome result (λ row. line.now ≡ line_of row) }
    {
        let (name, rest) = line.split_once(" | ")?;
        let (means, rest) = rest.split_once(" | ")?;
        let (section, rest) = rest.split_once(" | ")?;
        let (input, advice) = rest.split_once(" | ")?;
        Some(Row {
            name,
            means,
            section,
            input,
            advice,
        })
    }
}

/// The output of `wmod explain`.
impl fmt::Display for Row<'_> {
    fn fmt<W: fmt::Write>(&self, f: &mut fmt::Formatter<W>) -> fmt::Result {
        let Row {
            name,
            means,
            section,
            input,
            advice,
        } = self;
        write!(
            f,
            "{name}\n  {means}\n  Standard: {section}\n  Smallest input: {input}\n  What to do: {advice}\n"
        )
    }
}

/// Returns the row of a refusal of a module with this NAME.
pub fn row_of_module(name: &str) -> Option<Row<'static>>
    ensures { IfSome result (λ row. IsRowOfModule name.now row) }
{
    match row_in(OF_MODULES, name) {
        Some(row) => Some(row),
        None => row_in(OTHERS, name),
    }
}

/// Returns the row of a refusal of a text with this NAME.
pub fn row_of_text(name: &str) -> Option<Row<'static>>
    ensures { IfSome result (λ row. IsRowOfText name.now row) }
{
    match row_in(OF_TEXTS, name) {
        Some(row) => Some(row),
        None => row_in(OTHERS, name),
    }
}

/// Returns the first row of a table with this NAME.
fn row_in(table: &'static str, name: &str) -> Option<Row<'static>>
    ensures named { IfSome result (λ row. row.name.now ≡ name.now) }
    ensures line { IfSome result (λ row. Contains (lines table.now) (line_of row)) }
{
    for line in table.lines() {
        match Row::of(line) {
            Some(row) if row.name == name => return Some(row),
            _ => {}
        }
    }
    None
}
