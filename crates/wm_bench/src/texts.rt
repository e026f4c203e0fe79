//! Templates of texts: the printed modules of a stock, with comments.

use crate::answers::{Terms, load};
use crate::stock::{Entry, Template};
use std::alloc::Global;
use std::io;
use std::io::ErrorKind;
use wm_write::in_memory::printed;

/// The comment in each function. The letters of the first one differ from text to text.
const COMMENT: &[u8] = b"    ;; aaaaaaaa, as the compiler made it (; not by hand ;)\n";

const LETTERS: usize = 8;

const LETTERS_AT: usize = 7;

/// How the first line of a defined function begins. `END` is its last line.
const FUNCTION: &[u8] = b"  (func $f";

const END: &[u8] = b"  )";

/// A text with a comment in each function, and the offsets of each body.
#[derive(Drop)]
struct Text {
    text: Vec<u8>,
    spans: Vec<(usize, usize)>,
    start: usize,
    letters: Vec<usize>,
}

impl Text {
    /// Notes the offsets of the letters of the first comment.
    fn mark(&mut self) -> io::Result<()> {
        if self.letters.is_empty() {
            for i in 0..LETTERS {
                let place = self.start.saturating_add(LETTERS_AT);
                self.letters.push(place.saturating_add(i))?;
            }
        }
        Ok(())
    }

    fn line(&mut self, line: &[u8]) -> io::Result<()> {
        if line == END {
            self.spans.push((self.start, self.text.len()))?;
        }
        self.text.extend_from_slice(line)?;
        self.text.extend_from_slice(b"\n")?;
        if line.starts_with(FUNCTION) {
            self.start = self.text.len();
            self.text.extend_from_slice(COMMENT)?;
            self.mark()?;
        }
        Ok(())
    }
}

/// Adds comments to a printed text, and finds its bodies.
fn commented(alloc: Global, text: &[u8]) -> io::Result<Text> {
    let mut made = Text {
        text: Vec::new(alloc),
        spans: Vec::new(alloc),
        start: 0,
        letters: Vec::new(alloc),
    };
    for line in text.split(|byte| *byte == b'\n') {
        made.line(line)?;
    }
    Ok(made)
}

/// Returns the template of a module's text.
pub fn text_of(alloc: Global, template: &Template, terms: Terms) -> io::Result<Template> {
    let Ok(checked) = load(alloc, terms, &template.bytes) else {
        return Err(io::Error::from(ErrorKind::InvalidData));
    };
    let Ok(text) = printed(alloc, &checked) else {
        return Err(io::Error::from(ErrorKind::OutOfMemory));
    };
    let Text {
        text,
        spans,
        letters,
        ..
    } = commented(alloc, &text)?;
    let mut entries = Vec::new(alloc);
    for entry in &template.entries {
        let (start, end) = spans.get(entry.place).copied().unwrap_or((0, 0));
        entries.push(Entry {
            start,
            end,
            place: entry.place,
            class_end: entry.class_end,
        })?;
    }
    let constants = Vec::new(alloc);
    let profile = template.profile;
    Ok(Template::new(alloc, profile, text, entries, constants, letters)?)
}
