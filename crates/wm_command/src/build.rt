//! The action `build`: reads a text, and writes the canonical binary of its module.

ghost use Rattle.std.specs.Prelude.{◌≡◌, ◌≢◌, ◌<◌, ◌≤◌, ◌+◌, ◌^◌, ◌↔◌, ◌||◌, ◌++◌, ℕ, List, Err, IfOk};
ghost use Rattle.std.specs.Prelude.{IfSome, false, length, true};
ghost use Rattle.std.specs.Io.KnownBytes.{IsAtEnd};
ghost use Rattle.wm_command.specs.Answers.{IsAnswered};
ghost use Rattle.wm_command.specs.Building.{ModuleOut, TextOut};
ghost use Rattle.wm_command.specs.declared.build.InputFault.TheVariants as fault;
ghost use Rattle.wm_command.specs.declared.status.Status.{Status};
ghost use Rattle.wm_command.specs.declared.arguments.Action.TheVariants as action;
ghost use Rattle.wm_command.specs.Outcome.{IsOutput, IsRightFor};
ghost use Rattle.wm_command.specs.Details.{IsTold, text_told};
ghost use Rattle.wm_command.specs.Refused.{module_line, too_large_line};
ghost use Rattle.wm_write.specs.declared.check_module.CheckFault.TheVariants as check;
ghost use Rattle.wm_tokens.specs.declared.faults.TextWhy.TheVariants as text_fault;
ghost use Rattle.wm_syntax.specs.Profiles.{IsOf};
ghost use Rattle.wm_syntax.specs.Values.{value_of};

use crate::answer::answer;
use crate::detail::{Detail, Ended, TextDetail};
use crate::run::refuse;
use crate::status::Status;
use std::alloc::Global;
use wm_decode::Refusal;
use wm_read::faults::TextWhy;
use wm_read::spellings::Spellings;
use wm_read::text::read_text;
use wm_rules::{Found, Policy, Validator};
use wm_syntax::io::{Dest, Source};
use wm_syntax::modules::Module;
use wm_syntax::profile::Profile;
use wm_syntax::why::Why;
use wm_write::check_module::{CheckFault, checked_bytes, encoded_under};

const PIECE: usize = 4096;

// An upper bound on the length of a canonical binary, in bytes.
const MAX_BINARY: u64 = 1 << 62;

/// Why `read_all` did not return the whole input.
#[derive(Clone, Copy, PartialEq, Eq, Debug)]
enum InputFault {
    /// The input is longer than the limit.
    TooLong,
    /// The reader failed.
    Io,
    /// Memory was refused.
    Memory,
}

/// Reads all bytes of an input. Fails with `TooLong` if there are more than `limit` bytes, with `Io` if the
/// reader fails, and with `Memory` if memory is refused.
fn read_all<R: Source>(alloc: Global, r: &mut R, limit: u64) -> Result<Vec<u8>, InputFault>
    requires open { R.has_failed r.old ≡ false }
    requires limit { limit ≤ 2 ^ 62 }
    ensures whole { IfOk result (λ all. IfSome (R.remaining r.old) (λ input. IsAtEnd (R.remaining r.new)
        × (all.items ≡ input)
        × (length input ≤ limit))) }
    ensures long { result ≡ Err fault.TooLong → IfSome (R.remaining r.old)
        (λ input. (read rest : List ℕ) × (input ≡ read ++ rest) × (limit < length read)) }
    ensures failed { (result ≡ Err fault.Io) ↔ (R.has_failed r.new ≡ true) }
{
    let mut all = Vec::new(alloc);
    let mut piece = [0u8; PIECE];
    // each iteration but the last reads at least one byte
    for _ in 0..limit + 1 {
        let n = match r.get(&mut piece) {
            Ok(0) => return Ok(all),
            Ok(n) => n,
            Err(_) => return Err(InputFault::Io),
        };
        if let Err(_) = all.extend_from_slice(&piece[..n]) {
            return Err(InputFault::Memory);
        }
        if all.len() as u64 > limit {
            return Err(InputFault::TooLong);
        }
    }
    // not reached: `limit + 1` iterations read more than `limit` bytes
    Err(InputFault::TooLong)
}

/// Reads a text of at most `limit` bytes, and writes the canonical binary of its module, or the refusal.
/// Returns `Io` if the reader or the writer failed, and `Memory` if memory was refused. Writes nothing if memory
/// was refused or the reader failed.
pub fn build<R: Source, W: Dest>(
    alloc: Global,
    profile: Profile,
    limit: u64,
    policy: Policy,
    spellings: Spellings,
    r: &mut R,
    w: &mut W,
) -> Ended
    requires source { R.has_failed r.old ≡ false }
    requires dest { W.has_failed w.old ≡ false }
    requires limit { limit ≤ 2 ^ 62 }
    ensures answered { R.has_failed r.new ≡ false → result.status ≢ Status.Memory → (text : List ℕ)
        × (status : Status)
        × IsOutput action.Build text status
        × IfSome (R.remaining r.old)
        (λ input. IsRightFor action.Build profile limit policy spellings input (R.remaining r.new) text
        status)
        × IsAnswered text status (W.contents w.old) (W.contents w.new) (W.has_failed w.new)
        (W.is_flushed w.new) result.status }
    ensures reader { R.has_failed r.new ≡ true → (result.status ≡ Status.Io) × (w.new ≡ w.old) }
    ensures memory { result.status ≡ Status.Memory → w.new ≡ w.old }
    ensures io { (result.status ≡ Status.Io) ↔ ((R.has_failed r.new || W.has_failed w.new) ≡ true) }
    ensures told { IsTold result (W.contents w.old) (W.contents w.new) }
{
    match read_all(alloc, r, limit) {
        Ok(text) => convert(alloc, profile, policy, spellings, &text, w),
        Err(InputFault::TooLong) => {
            let refusal = Refusal {
                at: limit + 1,
                why: Why::TooLong,
            };
            Ended {
                status: refuse(alloc, refusal, w),
                detail: Some(Detail::Input {
                    refusal,
                    found: None,
                }),
            }
        }
        Err(InputFault::Io) => Ended {
            status: Status::Io,
            detail: None,
        },
        Err(InputFault::Memory) => Ended {
            status: Status::Memory,
            detail: None,
        },
    }
}

/// Writes the canonical binary of a text's module, or the refusal of the text or of its module.
fn convert<W: Dest>(
    alloc: Global,
    profile: Profile,
    policy: Policy,
    spellings: Spellings,
    text: &[u8],
    w: &mut W,
) -> Ended
    requires { W.has_failed w.old ≡ false }
    ensures answered { result.status ≢ Status.Memory → (written : List ℕ) × (status : Status)
        × TextOut profile policy spellings text.now written status
        × IsAnswered written status (W.contents w.old) (W.contents w.new) (W.has_failed w.new)
        (W.is_flushed w.new) result.status }
    ensures memory { result.status ≡ Status.Memory → w.new ≡ w.old }
    ensures io { (result.status ≡ Status.Io) ↔ (W.has_failed w.new ≡ true) }
    ensures told { IsTold result (W.contents w.old) (W.contents w.new) }
{
    match read_text(alloc, profile, spellings, text) {
        Ok(m) => convert_module(alloc, profile, policy, &m, w),
        Err(refusal) => {
            let detail = TextDetail::of(text, refusal);
            Ended {
                status: refuse_text(alloc, &detail, w),
                detail: Some(Detail::Text(detail)),
            }
        }
    }
}

/// Writes the canonical binary of a module of the profile, or its refusal.
fn convert_module<W: Dest>(
    alloc: Global,
    profile: Profile,
    policy: Policy,
    m: &Module,
    w: &mut W,
) -> Ended
    requires open { W.has_failed w.old ≡ false }
    requires instructions { IsOf profile (value_of m.now) }
    ensures answered { result.status ≢ Status.Memory → (written : List ℕ) × (status : Status)
        × ModuleOut profile policy (value_of m.now) written status
        × IsAnswered written status (W.contents w.old) (W.contents w.new) (W.has_failed w.new)
        (W.is_flushed w.new) result.status }
    ensures memory { result.status ≡ Status.Memory → w.new ≡ w.old }
    ensures io { (result.status ≡ Status.Io) ↔ (W.has_failed w.new ≡ true) }
    ensures told { IsTold result (W.contents w.old) (W.contents w.new) }
{
    match checked_bytes(alloc, profile, policy, m) {
        Ok(bytes) => Ended {
            status: answer(w, &bytes, Status::Done),
            detail: None,
        },
        Err(CheckFault::Refused(refusal)) => refuse_built(alloc, profile, policy, m, refusal, w),
        Err(CheckFault::TooLarge) => Ended {
            status: answer(w, b"module refused: TooLarge\n", Status::Refused),
            detail: Some(Detail::TooLarge),
        },
        Err(CheckFault::Memory) => Ended {
            status: Status::Memory,
            detail: None,
        },
    }
}

/// Finds the byte at which the profile refuses the binary of a module, and its place. The binary was not kept, so it is
/// written and validated again. Returns `None` only if memory is refused. No contract: the refusal is known, and this
/// decides only the words of its detail.
fn find_in_binary(alloc: Global, profile: Profile, policy: Policy, m: &Module) -> Option<Found> {
    let Ok(bytes) = encoded_under(alloc, profile, m) else {
        return None;
    };
    let mut validator = Validator::new(alloc, profile, MAX_BINARY, policy);
    let before = validator.snapshot();
    let fed = validator.feed(&bytes);
    let imported = validator.imported();
    match fed {
        Ok(()) => Some(Found::at_end(validator.snapshot(), imported)),
        Err(refusal) if refusal.why == Why::Memory => None,
        Err(refusal) => Some(Found::in_piece(before, &bytes, refusal, imported)),
    }
}

/// Writes the refusal of a text's module. Returns `Memory`, with nothing written, if memory is refused. The detail is that
/// of the written refusal.
fn refuse_built<W: Dest>(
    alloc: Global,
    profile: Profile,
    policy: Policy,
    m: &Module,
    refusal: Refusal,
    w: &mut W,
) -> Ended
    requires { W.has_failed w.old ≡ false }
    ensures answered { result.status ≢ Status.Memory
        → IsAnswered (module_line refusal.at refusal.why) Status.Refused
        (W.contents w.old) (W.contents w.new) (W.has_failed w.new) (W.is_flushed w.new) result.status }
    ensures memory { result.status ≡ Status.Memory → w.new ≡ w.old }
    ensures io { (result.status ≡ Status.Io) ↔ (W.has_failed w.new ≡ true) }
    ensures told { IsTold result (W.contents w.old) (W.contents w.new) }
{
    let found = find_in_binary(alloc, profile, policy, m);
    Ended {
        status: refuse_module(alloc, refusal, w),
        detail: Some(Detail::Built { refusal, found }),
    }
}

/// Writes the refusal of a text. Returns `Memory`, with nothing written, if memory was refused, now or before.
fn refuse_text<W: Dest>(alloc: Global, detail: &TextDetail, w: &mut W) -> Status
    requires open { W.has_failed w.old ≡ false }
    ensures answered { result ≢ Status.Memory → (detail.now.why ≢ text_fault.Memory)
        × IsAnswered (text_told detail.now) Status.Refused
        (W.contents w.old) (W.contents w.new) (W.has_failed w.new) (W.is_flushed w.new) result }
    ensures memory { result ≡ Status.Memory → w.new ≡ w.old }
    ensures io { (result ≡ Status.Io) ↔ (W.has_failed w.new ≡ true) }
{
    let why = match detail.why {
        TextWhy::Memory => return Status::Memory,
        why => why,
    };
    let TextDetail {
        at,
        line,
        column,
        ..
    } = detail;
    let said = format!(in alloc; "text refused at {at} ({line}:{column}): {}\n", why.name());
    match said {
        Ok(said) => answer(w, said.as_bytes(), Status::Refused),
        Err(_) => Status::Memory,
    }
}

/// Writes the line of the refusal of a text's module. Returns `Memory`, with nothing written, if memory is refused.
fn refuse_module<W: Dest>(alloc: Global, refusal: Refusal, w: &mut W) -> Status
    requires { W.has_failed w.old ≡ false }
    ensures answered { result ≢ Status.Memory
        → IsAnswered (module_line refusal.at refusal.why) Status.Refused
        (W.contents w.old) (W.contents w.new) (W.has_failed w.new) (W.is_flushed w.new) result }
    ensures memory { result ≡ Status.Memory → w.new ≡ w.old }
    ensures io { (result ≡ Status.Io) ↔ (W.has_failed w.new ≡ true) }
{
    match format!(in alloc;
        "module refused at {}: {}\n",
        refusal.at,
        refusal.why.name()
    ) {
        Ok(text) => answer(w, text.as_bytes(), Status::Refused),
        Err(_) => Status::Memory,
    }
}
