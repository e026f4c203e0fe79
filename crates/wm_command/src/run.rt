//! Runs an action on an input and writes the answer.

ghost use Rattle.std.specs.Prelude.{◌≡◌, ◌≢◌, ◌≤◌, ◌^◌, ◌↔◌, ◌||◌, ◌⊎◌, ℕ, List, IfSome, false, true};
ghost use Rattle.wm_syntax.specs.Values.{value_of};
ghost use Rattle.wm_rules.specs.declared.found.Found.{Found};
ghost use Rattle.wm_rules.specs.inner.Loaders.{module_in};
ghost use Rattle.wm_write.specs.Canon.{canon};
ghost use Rattle.wm_write.specs.Layout.{layout};
ghost use Rattle.wm_command.specs.Answers.{IsAnswered};
ghost use Rattle.wm_command.specs.Details.{IsTold};
ghost use Rattle.wm_command.specs.declared.status.Status.{Status};
ghost use Rattle.wm_command.specs.Outcome.{IsRightFor, IsOutput, stats_text};
ghost use Rattle.wm_command.specs.Refused.{refusal_line};

use crate::answer::answer;
use crate::arguments::{Action, Line};
use crate::build::build;
use crate::detail::{Detail, Ended};
use crate::status::Status;
use std::alloc::Global;
use wm_decode::Refusal;
use wm_read::spellings::Spellings;
use wm_rules::{Checked, FromFault, Policy, Summary, load_from, validate_from};
use wm_syntax::io::{Dest, Source};
use wm_syntax::profile::Profile;
use wm_syntax::why::Why;
use wm_write::encode::{WriteFault, encode};
use wm_write::print::{PrintFault, print};

/// Reads the input up to its end or its refusal, performs the action, and writes the answer or the refusal.
/// Returns `Io` if the reader or the writer failed, and `Memory` if memory was refused. Writes nothing if memory
/// was refused or the reader failed. `limit` is in bytes, at most 2^62. The detail is that of the written refusal.
pub fn run<R: Source, W: Dest>(
    alloc: Global,
    action: Action,
    profile: Profile,
    limit: u64,
    policy: Policy,
    spellings: Spellings,
    r: &mut R,
    w: &mut W,
) -> Ended
    requires source { R.has_failed r.old ≡ false }
    requires dest { W.has_failed w.old ≡ false }
    requires limit { limit ≤ 2 ^ 62 }
    // The whole text that is right for the input is written, or a prefix of it if the writer failed.
    ensures answered { R.has_failed r.new ≡ false → result.status ≢ Status.Memory → (text : List ℕ)
        × (status : Status)
        × IsOutput action text status
        × IfSome (R.remaining r.old) (λ input. IsRightFor action profile limit policy spellings input
        (R.remaining r.new) text status)
        × IsAnswered text status (W.contents w.old) (W.contents w.new) (W.has_failed w.new)
        (W.is_flushed w.new) result.status }
    ensures reader { R.has_failed r.new ≡ true → (result.status ≡ Status.Io) × (w.new ≡ w.old) }
    ensures memory { result.status ≡ Status.Memory → w.new ≡ w.old }
    ensures io { (result.status ≡ Status.Io) ↔ ((R.has_failed r.new || W.has_failed w.new) ≡ true) }
    ensures told { IsTold result (W.contents w.old) (W.contents w.new) }
{
    match action {
        Action::Check => match validate_from(alloc, r, profile, limit, policy) {
            Ok(_) => Ended {
                status: answer(w, b"valid\n", Status::Done),
                detail: None,
            },
            Err(fault) => answer_fault(alloc, fault, w),
        },
        Action::Stats => match validate_from(alloc, r, profile, limit, policy) {
            Ok(summary) => Ended {
                status: report(alloc, summary, w),
                detail: None,
            },
            Err(fault) => answer_fault(alloc, fault, w),
        },
        Action::Canon => match load_from(alloc, r, profile, limit, policy) {
            Ok(checked) => Ended {
                status: write_canonical(&checked, w),
                detail: None,
            },
            Err(fault) => answer_fault(alloc, fault, w),
        },
        Action::Show => match load_from(alloc, r, profile, limit, policy) {
            Ok(checked) => Ended {
                status: write_text(&checked, w),
                detail: None,
            },
            Err(fault) => answer_fault(alloc, fault, w),
        },
        Action::Build => build(alloc, profile, limit, policy, spellings, r, w),
    }
}

/// Runs the action of the line on this input, as `run` does.
pub fn run_line<R: Source, W: Dest>(alloc: Global, line: &Line<'_>, r: &mut R, w: &mut W) -> Ended
    requires source { R.has_failed r.old ≡ false }
    requires dest { W.has_failed w.old ≡ false }
    // The whole text that is right for the input is written, or a prefix of it if the writer failed.
    ensures answered { R.has_failed r.new ≡ false → result.status ≢ Status.Memory → (text : List ℕ)
        × (status : Status)
        × IsOutput line.now.action text status
        × IfSome (R.remaining r.old)
        (λ input. IsRightFor line.now.action line.now.profile line.now.limit line.now.policy
        line.now.spellings input
        (R.remaining r.new) text status)
        × IsAnswered text status (W.contents w.old) (W.contents w.new) (W.has_failed w.new)
        (W.is_flushed w.new) result.status }
    ensures reader { R.has_failed r.new ≡ true → (result.status ≡ Status.Io) × (w.new ≡ w.old) }
    ensures memory { result.status ≡ Status.Memory → w.new ≡ w.old }
    ensures io { (result.status ≡ Status.Io) ↔ ((R.has_failed r.new || W.has_failed w.new) ≡ true) }
    ensures told { IsTold result (W.contents w.old) (W.contents w.new) }
{
    run(
        alloc,
        line.action,
        line.profile,
        line.limit,
        line.policy,
        line.spellings,
        r,
        w,
    )
}

/// Writes the five figures of a summary. Returns `Memory`, with nothing written, if memory is refused.
fn report<W: Dest>(alloc: Global, summary: Summary, w: &mut W) -> Status
    requires { W.has_failed w.old ≡ false }
    ensures answered { result ≢ Status.Memory
        → IsAnswered (stats_text summary) Status.Done
        (W.contents w.old) (W.contents w.new) (W.has_failed w.new) (W.is_flushed w.new) result }
    ensures memory { result ≡ Status.Memory → w.new ≡ w.old }
    ensures io { (result ≡ Status.Io) ↔ (W.has_failed w.new ≡ true) }
{
    let Summary {
        functions,
        moves,
        operands,
        controls,
        probes,
    } = summary;
    let text = format!(in alloc;
        "functions {functions}\nmoves {moves}\noperands {operands}\n\
        controls {controls}\nprobes {probes}\n"
    );
    match text {
        Ok(text) => answer(w, text.as_bytes(), Status::Done),
        Err(_) => Status::Memory,
    }
}

/// Writes the canonical binary of a module, and flushes.
fn write_canonical<W: Dest>(checked: &Checked, w: &mut W) -> Status
    requires { W.has_failed w.old ≡ false }
    ensures { IsAnswered (canon (value_of (module_in checked.now))) Status.Done (W.contents w.old)
        (W.contents w.new)
        (W.has_failed w.new) (W.is_flushed w.new) result }
{
    match encode(checked.module(), w) {
        Ok(_) => answer(w, b"", Status::Done),
        // not reached: each section of a loaded module fits
        Err(WriteFault::TooLarge) => Status::Io,
        Err(WriteFault::Io { written: _ }) => Status::Io,
    }
}

/// Writes the text of a module, and flushes.
fn write_text<W: Dest>(checked: &Checked, w: &mut W) -> Status
    requires { W.has_failed w.old ≡ false }
    ensures { IsAnswered (layout (value_of (module_in checked.now))) Status.Done (W.contents w.old)
        (W.contents w.new)
        (W.has_failed w.new) (W.is_flushed w.new) result }
{
    match print(checked, w) {
        Ok(()) => answer(w, b"", Status::Done),
        Err(PrintFault::Io) => Status::Io,
    }
}

/// Writes the refusal of an input. Returns `Memory` if memory was refused, and `Io` if the reader failed; both
/// write nothing. Also returns `Io` if the writer failed.
fn answer_fault<W: Dest>(alloc: Global, fault: FromFault, w: &mut W) -> Ended
    requires { W.has_failed w.old ≡ false }
    ensures answered { fault ≢ FromFault.Io → result.status ≢ Status.Memory → (refusal : Refusal)
        × ((found : Found) × (fault ≡ FromFault.Refused refusal found))
        × (refusal.why ≢ Why.Memory)
        × IsAnswered (refusal_line refusal.at refusal.why) Status.Refused
        (W.contents w.old) (W.contents w.new) (W.has_failed w.new) (W.is_flushed w.new) result.status }
    ensures reader { fault ≡ FromFault.Io → (result.status ≡ Status.Io) × (w.new ≡ w.old) }
    ensures memory { result.status ≡ Status.Memory → w.new ≡ w.old }
    ensures io { (result.status ≡ Status.Io) ↔ ((fault ≡ FromFault.Io) ⊎ (W.has_failed w.new ≡ true)) }
    ensures told { IsTold result (W.contents w.old) (W.contents w.new) }
{
    match fault {
        FromFault::Refused(refusal, found) => Ended {
            status: refuse(alloc, refusal, w),
            detail: Some(Detail::Input {
                refusal,
                found: Some(found),
            }),
        },
        FromFault::Io => Ended {
            status: Status::Io,
            detail: None,
        },
    }
}

/// Writes a refusal. Returns `Memory`, with nothing written, if memory was refused, now or before.
pub(crate) fn refuse<W: Dest>(alloc: Global, refusal: Refusal, w: &mut W) -> Status
    requires { W.has_failed w.old ≡ false }
    ensures answered { result ≢ Status.Memory → (refusal.why ≢ Why.Memory)
        × IsAnswered (refusal_line refusal.at refusal.why) Status.Refused
        (W.contents w.old) (W.contents w.new) (W.has_failed w.new) (W.is_flushed w.new) result }
    ensures memory { result ≡ Status.Memory → w.new ≡ w.old }
    ensures io { (result ≡ Status.Io) ↔ (W.has_failed w.new ≡ true) }
{
    let why = match refusal.why {
        Why::Memory => return Status::Memory,
        why => why,
    };
    match format!(in alloc; "refused at {}: {}\n", refusal.at, why.name()) {
        Ok(text) => answer(w, text.as_bytes(), Status::Refused),
        Err(_) => Status::Memory,
    }
}
