//! The calls that convert a module and write the result to a buffer of the caller.

ghost use Rattle.std.specs.Prelude.{◌≡◌, ◌≢◌, ◌<◌, ◌≤◌, ◌+◌, ◌^◌, Err, IfOk, IfErr, length};
ghost use Rattle.wm_c.specs.Answers.{IsRight};
ghost use Rattle.wm_c.specs.Conversions.{Builds, ConvertedFrom, ConvertedText};
ghost use Rattle.wm_c.specs.Conversions.{IsUnbuilt, IsUnchecked, unbuilt};
ghost use Rattle.wm_rules.specs.Loading.{Loads};
ghost use Rattle.wm_rules.specs.Policies.{Within};
ghost use Rattle.wm_rules.specs.Validation.{Valid};
ghost use Rattle.wm_rules.specs.inner.Loaders.{module_in};
ghost use Rattle.wm_syntax.specs.Modules.{Module as AModule};
ghost use Rattle.wm_syntax.specs.Profiles.{IsOf};
ghost use Rattle.wm_syntax.specs.Values.{value_of};
ghost use Rattle.wm_write.specs.Canon.{canon};
ghost use Rattle.wm_write.specs.Layout.{layout};

use crate::options::{Asked, Options};
use crate::output::{Output, Unbuilt, filled};
use std::alloc::Global;
use wm_decode::Refusal;
use wm_read::text::read_text;
use wm_rules::{Checked, Loader, Policy};
use wm_syntax::modules::Module;
use wm_syntax::profile::Profile;
use wm_syntax::why::Why;
use wm_write::check_module::{CheckFault, checked_bytes};
use wm_write::in_memory::{MakeFault, encoded, printed};

/// Writes the canonical binary of a valid module, and returns the output's status.
#[unsafe(no_mangle)]
pub extern "C" fn wmod_canon(
    alloc: Global,
    bytes: &[u8],
    options: &Options,
    out: &mut [u8],
    output: &mut Output,
) -> u32
    ensures converted { ConvertedFrom canon options.now bytes.now out.old out.new output.new }
    // A buffer as long as the input is enough: no canonical binary is longer than its module's bytes.
    ensures enough { length bytes.now ≤ length out.old → result ≢ 5 }
    ensures status { result ≡ output.new.status }
{
    *output = match options.asked() {
        Some(asked) => match canonical(alloc, bytes, asked) {
            Ok(binary) => filled(&binary, out),
            Err(refusal) => Output::refused(refusal),
        },
        None => Output::misused(),
    };
    output.status
}

/// Writes the text of a valid module, and returns the output's status.
#[unsafe(no_mangle)]
pub extern "C" fn wmod_show(
    alloc: Global,
    bytes: &[u8],
    options: &Options,
    out: &mut [u8],
    output: &mut Output,
) -> u32
    ensures converted { ConvertedFrom layout options.now bytes.now out.old out.new output.new }
    ensures status { result ≡ output.new.status }
{
    *output = match options.asked() {
        Some(asked) => match shown(alloc, bytes, asked) {
            Ok(text) => filled(&text, out),
            Err(refusal) => Output::refused(refusal),
        },
        None => Output::misused(),
    };
    output.status
}

/// Writes the canonical binary of the valid module that a text writes, and returns the output's status.
#[unsafe(no_mangle)]
pub extern "C" fn wmod_build(
    alloc: Global,
    text: &[u8],
    options: &Options,
    out: &mut [u8],
    output: &mut Output,
) -> u32
    ensures converted { ConvertedText options.now text.now out.old out.new output.new }
    // A text above the limit is refused as `TooLong`, whatever its bytes, and even if memory is short.
    ensures too_long { result ≢ 2 → options.now.max_bytes < length text.now
        → output.new ≡ unbuilt (Unbuilt.TooLong (options.now.max_bytes + 1)) }
    ensures status { result ≡ output.new.status }
{
    *output = match options.asked() {
        Some(asked) => match built(alloc, text, asked) {
            Ok(binary) => filled(&binary, out),
            Err(unbuilt) => Output::unbuilt(unbuilt),
        },
        None => Output::misused(),
    };
    output.status
}

/// Returns the refusal `Memory`: a loaded module is never too large. The offset 0 has no meaning.
fn out_of_memory(fault: MakeFault) -> Refusal
    requires { fault ≢ MakeFault.TooLarge }
    ensures why { result.why ≡ Why.Memory }
    ensures at { result.at ≡ 0 }
{
    let (MakeFault::TooLarge | MakeFault::Memory) = fault;
    Refusal {
        at: 0,
        why: Why::Memory,
    }
}

fn canonical(alloc: Global, bytes: &[u8], asked: Asked) -> Result<Vec<u8>, Refusal>
    requires { asked.max_bytes ≤ 2 ^ 62 }
    ensures made { IfOk result (λ b. (m : AModule)
        × Loads asked.profile asked.max_bytes asked.policy bytes.now m × (b.items ≡ canon m)) }
    ensures refused { IfErr result (λ r.
        IsRight asked.profile asked.max_bytes asked.policy bytes.now (Err r)) }
{
    let checked = load(alloc, bytes, asked)?;
    match encoded(alloc, checked.module()) {
        Ok(binary) => Ok(binary),
        Err(fault) => Err(out_of_memory(fault)),
    }
}

fn shown(alloc: Global, bytes: &[u8], asked: Asked) -> Result<Vec<u8>, Refusal>
    requires { asked.max_bytes ≤ 2 ^ 62 }
    ensures made { IfOk result (λ b. (m : AModule)
        × Loads asked.profile asked.max_bytes asked.policy bytes.now m × (b.items ≡ layout m)) }
    ensures refused { IfErr result (λ r.
        IsRight asked.profile asked.max_bytes asked.policy bytes.now (Err r)) }
{
    let checked = load(alloc, bytes, asked)?;
    match printed(alloc, &checked) {
        Ok(text) => Ok(text),
        Err(fault) => Err(out_of_memory(fault)),
    }
}

fn load(alloc: Global, bytes: &[u8], asked: Asked) -> Result<Checked, Refusal>
    requires { asked.max_bytes ≤ 2 ^ 62 }
    ensures loads { IfOk result (λ c.
        Loads asked.profile asked.max_bytes asked.policy bytes.now (value_of (module_in c))) }
    ensures refused { IfErr result (λ r.
        IsRight asked.profile asked.max_bytes asked.policy bytes.now (Err r)) }
{
    let mut loader = Loader::new(alloc, asked.profile, asked.max_bytes, asked.policy);
    match loader.feed(bytes) {
        Ok(()) => match loader.finish() {
            Ok(checked) => Ok(checked),
            Err(refusal) => Err(refusal),
        },
        Err(refusal) => Err(refusal),
    }
}

fn built(alloc: Global, text: &[u8], asked: Asked) -> Result<Vec<u8>, Unbuilt>
    requires { asked.max_bytes ≤ 2 ^ 62 }
    ensures made { IfOk result (λ b. (m : AModule)
        × Builds asked.spellings text.now asked.profile asked.max_bytes asked.policy m
        × (b.items ≡ canon m)) }
    ensures unbuilt { IfErr result
        (IsUnbuilt asked.spellings text.now asked.profile asked.max_bytes asked.policy) }
    ensures too_long { asked.max_bytes < length text.now
        → result ≡ Err (Unbuilt.TooLong (asked.max_bytes + 1)) }
{
    let Asked {
        profile,
        max_bytes,
        policy,
        spellings,
    } = asked;
    if text.len() as u64 > max_bytes {
        return Err(Unbuilt::TooLong(max_bytes + 1));
    }
    match read_text(alloc, profile, spellings, text) {
        Ok(m) => match checked(alloc, profile, policy, &m) {
            Ok(binary) => Ok(binary),
            Err(fault) => Err(Unbuilt::Check(fault)),
        },
        Err(refusal) => Err(Unbuilt::Text(refusal)),
    }
}

fn checked(
    alloc: Global,
    profile: Profile,
    policy: Policy,
    m: &Module,
) -> Result<Vec<u8>, CheckFault>
    requires { IsOf profile (value_of m.now) }
    ensures given { IfOk result (λ b. (b.items ≡ canon (value_of m.now)) × Valid (value_of m.now)
        × Within policy (value_of m.now)) }
    ensures unchecked { IfErr result (IsUnchecked profile policy (value_of m.now)) }
{
    checked_bytes(alloc, profile, policy, m)
}
