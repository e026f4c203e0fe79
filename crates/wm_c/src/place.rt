//! The place of a byte in a module, as C gets it.

ghost use Rattle.std.specs.Prelude.{◌≡◌, ◌≢◌, IfSome, MatchOption, Some};
ghost use Rattle.wm_c.specs.Places.{awaits_code, nowhere, numbers_in, place_numbers, spot_numbers};
ghost use Rattle.wm_decode.specs.declared.place.awaits.Awaits.{Awaits as AnAwaits};

use wm_rules::{Awaits, Found, Imported, Place as PlaceOf};

/// `struct wmod_place` of the header, which documents each field.
#[repr(C)]
#[derive(Clone, Copy, PartialEq, Eq, Debug)]
pub struct Place {
    pub section: u32,
    pub item: u32,
    pub index: u32,
    pub awaits: u32,
    pub byte: u32,
}

/// `WMOD_NONE`. No field has this value otherwise: a section has less than 2^32 bytes, so fewer members than this.
const NONE: u32 = u32::MAX;

/// Returns the number of a part of the format.
fn awaits_number(awaits: Awaits) -> u32
    ensures { result ≡ awaits_code awaits }
{
    match awaits {
        Awaits::Number => 1,
        Awaits::Name => 2,
        Awaits::ValueType => 3,
        Awaits::BlockType => 4,
        Awaits::TypeForm => 5,
        Awaits::LimitsFlag => 6,
        Awaits::ElementType => 7,
        Awaits::Mutability => 8,
        Awaits::Opcode => 9,
        Awaits::TableByte => 10,
        Awaits::MemoryByte => 11,
        Awaits::Kind => 12,
        Awaits::Any => 13,
        Awaits::OpcodeNumber => 14,
    }
}

/// Returns the part of the format with this number.
fn awaits_of(number: u32) -> Option<Awaits>
    ensures { MatchOption result ((awaits : AnAwaits) → number ≢ awaits_code awaits)
        (λ awaits. number ≡ awaits_code awaits) }
{
    match number {
        1 => Some(Awaits::Number),
        2 => Some(Awaits::Name),
        3 => Some(Awaits::ValueType),
        4 => Some(Awaits::BlockType),
        5 => Some(Awaits::TypeForm),
        6 => Some(Awaits::LimitsFlag),
        7 => Some(Awaits::ElementType),
        8 => Some(Awaits::Mutability),
        9 => Some(Awaits::Opcode),
        10 => Some(Awaits::TableByte),
        11 => Some(Awaits::MemoryByte),
        12 => Some(Awaits::Kind),
        13 => Some(Awaits::Any),
        14 => Some(Awaits::OpcodeNumber),
        _ => None,
    }
}

/// Returns the index of a member in its index space, where imports come first.
fn index_of(place: PlaceOf, imported: Imported) -> u32 {
    let Some(item) = place.item else {
        return NONE;
    };
    let before = match place.section {
        3 | 10 => imported.functions,
        6 => imported.globals,
        _ => 0,
    };
    let index = before.saturating_add(u64::from(item));
    index.min(u64::from(NONE)) as u32
}

impl Place {
    /// Returns the place outside of all sections.
    pub(crate) fn nowhere() -> Place
        ensures { result ≡ nowhere }
    {
        Place {
            section: NONE,
            item: NONE,
            index: NONE,
            awaits: 0,
            byte: NONE,
        }
    }

    /// Returns in numbers what was found. No contract pins `index` and `byte`; they are tested.
    pub(crate) fn of(found: Found) -> Place
        ensures { numbers_in result ≡ place_numbers found.place }
    {
        let byte = match found.byte {
            Some(byte) => u32::from(byte),
            None => NONE,
        };
        match found.place {
            Some(place) => Place {
                section: u32::from(place.section),
                item: place.item.unwrap_or(NONE),
                index: index_of(place, found.imported),
                awaits: awaits_number(place.awaits),
                byte,
            },
            None => Place {
                section: NONE,
                item: NONE,
                index: NONE,
                awaits: 0,
                byte,
            },
        }
    }

    /// Returns the section and the part of the format. `None` outside of sections, and for numbers that no place has.
    pub(crate) fn spot(&self) -> Option<(u8, Awaits)>
        ensures { IfSome result (λ spot. spot_numbers spot ≡ (self.now.section, self.now.awaits)) }
    {
        let section = u8::try_from(self.section).ok()?;
        Some((section, awaits_of(self.awaits)?))
    }
}
