//! Modules made by compilers, and the similar modules made from them.

use crate::random::Random;
use std::alloc::{AllocError, Global};
use wm_syntax::profile::Profile;

/// A code entry: its index in the code section, and its offsets in the bytes of the module or text.
#[derive(Clone, Copy)]
pub struct Entry {
    pub place: usize,
    pub start: usize,
    pub end: usize,
    /// The end of the entries of its type in the list of all entries, which is sorted by type.
    pub class_end: usize,
}

/// A module from which similar ones are made: code entries of one type are shuffled, and some constants and letters
/// change.
#[derive(Drop)]
pub struct Template {
    pub profile: Profile,
    pub bytes: Vec<u8>,
    pub entries: Vec<Entry>,
    /// For each entry of the list, the entry that now takes its place.
    shuffled: Vec<usize>,
    /// For each index in the code section, the entry that was there and the entry that is there now.
    order: Vec<(usize, usize)>,
    /// The offsets of constants of one byte.
    constants: Vec<usize>,
    /// The offsets of letters in exported names, or in comments.
    letters: Vec<usize>,
}

/// Returns the bytes from `start` to `end`, or none if they are out of range.
fn cut(bytes: &[u8], start: usize, end: usize) -> &[u8] {
    if start <= end && end <= bytes.len() {
        &bytes[start..end]
    } else {
        b""
    }
}

fn change(bytes: &mut Vec<u8>, place: usize, byte: u8) {
    if let Some(there) = bytes.get_mut(place) {
        *there = byte;
    }
}

impl Template {
    pub fn new(
        alloc: Global,
        profile: Profile,
        bytes: Vec<u8>,
        entries: Vec<Entry>,
        constants: Vec<usize>,
        letters: Vec<usize>,
    ) -> Result<Self, AllocError> {
        let mut order = Vec::new(alloc);
        let mut shuffled = Vec::new(alloc);
        for index in 0..entries.len() {
            order.push((0, 0))?;
            shuffled.push(index)?;
        }
        Ok(Template {
            profile,
            bytes,
            entries,
            shuffled,
            order,
            constants,
            letters,
        })
    }

    /// Changes about one constant in 64, and each letter.
    fn renew_bytes(&mut self, random: &mut Random) {
        for _ in 0..self.constants.len() / 64 + 1 {
            let turn = random.below(self.constants.len());
            if let Some(place) = self.constants.get(turn) {
                change(&mut self.bytes, *place, random.byte() & 0x3f);
            }
        }
        for place in &self.letters {
            change(&mut self.bytes, *place, b'a' + random.byte() % 26);
        }
    }

    /// Shuffles the entries of each type.
    fn shuffle(&mut self, random: &mut Random) {
        for (index, entry) in self.entries.iter().enumerate() {
            let other = index.wrapping_add(random.below(entry.class_end.wrapping_sub(index)));
            if index < self.shuffled.len() && other < self.shuffled.len() {
                self.shuffled.swap(index, other);
            }
        }
    }

    /// Computes `order` from `shuffled`.
    fn arrange(&mut self) {
        for (index, entry) in self.entries.iter().enumerate() {
            let now = self.shuffled.get(index).copied().unwrap_or(index);
            if let Some(there) = self.order.get_mut(entry.place) {
                *there = (index, now);
            }
        }
    }

    /// Makes another module of the kind. It replaces the contents of `made`.
    pub fn make(&mut self, random: &mut Random, made: &mut Vec<u8>) -> Result<(), AllocError> {
        self.renew_bytes(random);
        self.shuffle(random);
        self.arrange();
        made.clear();
        let mut done = 0;
        for (stood, now) in &self.order {
            if let (Some(stood), Some(now)) = (self.entries.get(*stood), self.entries.get(*now)) {
                made.extend_from_slice(cut(&self.bytes, done, stood.start))?;
                made.extend_from_slice(cut(&self.bytes, now.start, now.end))?;
                done = stood.end;
            }
        }
        made.extend_from_slice(cut(&self.bytes, done, self.bytes.len()))
    }
}

/// A reader of numbers of four bytes, lowest byte first.
#[derive(Drop)]
struct Numbers<'a> {
    rest: &'a [u8],
}

impl Numbers<'_> {
    fn next(&mut self) -> Option<usize> {
        match self.rest {
            [a, b, c, d, rest @ ..] => {
                let number = u32::from_le_bytes([*a, *b, *c, *d]);
                self.rest = rest;
                Some(number as usize)
            }
            _ => None,
        }
    }

    fn entries(&mut self, alloc: Global, count: usize) -> Result<Vec<Entry>, AllocError> {
        let mut entries = Vec::new(alloc);
        for _ in 0..count {
            let place = self.next();
            let start = self.next();
            let end = self.next();
            let class_end = self.next();
            if let (Some(place), Some(start), Some(end), Some(class_end)) = (
                place, start, end, class_end,
            ) {
                entries.push(Entry {
                    place,
                    start,
                    end,
                    class_end,
                })?;
            }
        }
        Ok(entries)
    }

    fn places(&mut self, alloc: Global, count: usize) -> Result<Vec<usize>, AllocError> {
        let mut places = Vec::new(alloc);
        for _ in 0..count {
            if let Some(place) = self.next() {
                places.push(place)?;
            }
        }
        Ok(places)
    }

    /// Reads the next template: five numbers, the lists that they count, and the module.
    fn template(&mut self, alloc: Global) -> Result<Option<Template>, AllocError> {
        let Some(profile) = self.next() else {
            return Ok(None);
        };
        let size = self.next().unwrap_or(0);
        let entries = self.next().unwrap_or(0);
        let constants = self.next().unwrap_or(0);
        let letters = self.next().unwrap_or(0);
        let entries = self.entries(alloc, entries)?;
        let constants = self.places(alloc, constants)?;
        let letters = self.places(alloc, letters)?;
        let profile = if profile == 1 {
            Profile::ONE
        } else {
            Profile::THREE
        };
        let (front, rest) = self.rest.split_at(size.min(self.rest.len()));
        let bytes = front.to_vec(alloc)?;
        self.rest = rest;
        let template = Template::new(alloc, profile, bytes, entries, constants, letters)?;
        Ok(Some(template))
    }
}

/// Reads templates one after another.
pub fn read_stock(alloc: Global, bytes: &[u8]) -> Result<Vec<Template>, AllocError> {
    let mut numbers = Numbers { rest: bytes };
    let mut stock = Vec::new(alloc);
    for _ in 0..bytes.len() {
        match numbers.template(alloc)? {
            Some(template) => stock.push(template)?,
            None => break,
        }
    }
    Ok(stock)
}
