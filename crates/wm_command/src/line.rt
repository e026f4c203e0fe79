//! Parses the command line, and finds the first argument whose value is wrong. Also the text of the help.

ghost use Rattle.std.specs.Prelude.{ℕ, ◌≡◌, ◌≢◌, ◌<◌, ◌≤◌, ◌^◌, ◌⊎◌, ◌↔◌, [], Option, Some, false, codes, map};
ghost use Rattle.std.specs.Prelude.{option_map, IfOk, IfErr, IfSome, IsSome, IsTrue, None, SomeIff, MatchOption};
ghost use Rattle.std.specs.Prelude.{Contains, List, length};
ghost use Rattle.std.specs.Str.Parse.{IsNumeral, digits_value};
ghost use Rattle.clap.specs.Words.{app_of, fault_of, first_value, found_of, rule_of};
ghost use Rattle.wm_command.specs.declared.arguments.Action.TheVariants.{Build};
ghost use Rattle.wm_command.specs.declared.arguments.LineFault.TheVariants.{Memory, Words};
ghost use Rattle.wm_command.specs.Lines.{Asks, AsksNothing, FilesFit, GivesInputs, GivesProfile, IsActionWord, IsEnding, IsFaultOf};
ghost use Rattle.wm_command.specs.Lines.{IsLimit, IsMost, IsPolicy, IsProfile, IsSpellings, IsWrong, NamesAction, NamesFeatures};
ghost use Rattle.wm_command.specs.Lines.{NamesNoOther, NamesProfile, words_in};
ghost use Rattle.wm_command.specs.Lines.{NoneIsWrong, Says, SaysNone, Stands, TakesMany, WritesModule};
ghost use Rattle.wm_command.specs.Lines.{action_name, action_rule, file_rule, file_rules, files_found, files_of, flag_rule};
ghost use Rattle.wm_command.specs.Lines.{head_of, module_rules, option_rule};
ghost use Rattle.wm_command.specs.Lines.{versioned, with_letter, with_rules, wmod, word_of};
ghost use Rattle.wm_command.specs.declared.arguments.Inputs.{Inputs};
ghost use Rattle.wm_read.specs.declared.spellings.Spellings.{Spellings};
ghost use Rattle.wm_rules.specs.declared.policy.Policy.{Policy};
ghost use Rattle.wm_syntax.specs.declared.profile.Feature.{Feature as AFeature};
ghost use Rattle.wm_syntax.specs.declared.profile.Profile.{Profile};

use crate::arguments::{Action, Ending, Inputs, Line, LineFault, Request};
use crate::complaint::Escaped;
use crate::explain::Wrong;
use crate::features::{NoFeature, with_features, with_words};
use clap::error::ErrorKind;
use clap::{Arg, ArgAction, ArgMatches, Command};
use std::alloc::{AllocError, Global};
use std::convert::AsStr;
use std::fmt;
use wm_read::spellings::Spellings;
use wm_rules::Policy;
use wm_syntax::profile::Profile;

const DEFAULT_LIMIT: u64 = 4294967295;

const MOST_LIMIT: u64 = 4611686018427387904;

/// Parses the value of `--limit`. Returns `None` if it is not all decimal digits, or is above 2^62.
fn limit_of(text: &str) -> Option<u64>
    ensures { SomeIff result (IsNumeral 10 text.now × (digits_value 10 text.now ≤ 2 ^ 62))
        (digits_value 10 text.now) }
{
    // `parse` accepts a sign
    if text.starts_with('+') {
        return None;
    }
    match text.parse::<u64>() {
        Ok(limit) if limit <= MOST_LIMIT => Some(limit),
        _ => None,
    }
}

/// Parses a limit of the policy. Returns `None` if it is not all decimal digits, or is not below 2^32.
fn most_of(text: &str) -> Option<u32>
    ensures { SomeIff result (IsNumeral 10 text.now × (digits_value 10 text.now < 2 ^ 32))
        (digits_value 10 text.now) }
{
    // `parse` accepts a sign
    if text.starts_with('+') {
        return None;
    }
    text.parse::<u32>().ok()
}

/// Returns the action with this name, or `None` if there is none. `explain` and `help` are no `Action`.
fn action_of(text: &str) -> Option<Action>
    ensures { MatchOption result ((a : Action) → text.now ≢ action_name a) (λ a. text.now ≡ action_name a) }
{
    match text {
        "check" => Some(Action::Check),
        "stats" => Some(Action::Stats),
        "canon" => Some(Action::Canon),
        "show" => Some(Action::Show),
        "build" => Some(Action::Build),
        _ => None,
    }
}

/// Whether ACTION may be this word: the name of an action, `explain` or `help`.
fn is_action_word(text: &str) -> bool
    ensures { IsTrue result ↔ IsActionWord text.now }
{
    match text {
        "explain" | "help" => true,
        _ => action_of(text).is_some(),
    }
}

/// Whether an action with this word reads several files, or a list of names.
fn takes_many(text: &str) -> bool
    ensures { IsTrue result ↔ TakesMany text.now }
{
    match text {
        "check" | "stats" => true,
        _ => false,
    }
}

/// Whether an action with this word writes a module, so that it may write it to a file.
fn writes_module(text: &str) -> bool
    ensures { IsTrue result ↔ WritesModule text.now }
{
    match text {
        "canon" | "show" | "build" => true,
        _ => false,
    }
}

/// Returns the profile with this name: `1` to `4`, or `1.0` for `3`. Returns `None` for any other text.
fn profile_of(text: &str) -> Option<Profile>
    ensures { MatchOption result ((p : Profile) → NamesProfile text.now p → ⊥) (NamesProfile text.now) }
{
    match text {
        "1" => Some(Profile::ONE),
        "2" => Some(Profile::TWO),
        "3" | "1.0" => Some(Profile::THREE),
        "4" => Some(Profile::FOUR),
        _ => None,
    }
}

const ABOUT: &str = "Checks and converts WebAssembly 1.0 modules, reading them once.\n\n  \
    check    print `valid`, or why the input is refused and where\n  \
    stats    print five figures about the function bodies of a valid module\n  \
    canon    write a valid module in canonical binary form: shortest numbers, no custom sections\n  \
    show     write a valid module as text: one line per field, and one per instruction\n  \
    build    read a module as text, and write it in canonical binary form\n  \
    explain  print what the NAME of a refusal means: `wmod explain NAME`";

const ANSWERS: &str =
    "Any other input gives `refused at N: NAME`: N bytes were read when it was decided.\n\
    `build` prints `text refused at N (LINE:COLUMN): NAME` for a wrong text: N is the offset of the deciding\n\
    token, and LINE and COLUMN are where it begins.\n\
    It prints `module refused at N: NAME` for an invalid module: N counts bytes of its canonical binary.\n\
    `wmod explain NAME` explains a NAME.\n\n\
    `check` and `stats` print a line for each of several files, such as `FILE: valid`. The run goes on after a\n\
    refusal or a file that cannot be read, and the greatest exit status is returned.\n\n\
    A module of 30 bytes may declare 2^32 - 1 locals, which `show` writes as 17 GB of text. For untrusted\n\
    modules set --max-functions F and --max-locals L: locals then take at most about 4 F L bytes.\n\n\
    Exit status: 0 done, 1 refused, 2 wrong arguments, 3 cannot read or write, 4 out of memory.\n\n\
    Examples:\n  \
    wmod check module.wasm\n  \
    wmod check --profile 3 with_floats.wasm\n  \
    wmod check --features compilers compiled.wasm\n  \
    wmod stats --limit 1000000 < module.wasm\n  \
    wmod check first.wasm second.wasm\n  \
    find modules -name '*.wasm' -print0 | wmod check --from - --null\n  \
    wmod canon module.wasm > canonical.wasm\n  \
    wmod show module.wasm > module.wat\n  \
    wmod show --max-functions 1000 --max-locals 1000 stranger.wasm > stranger.wat\n  \
    wmod build module.wat --output module.wasm\n  \
    wmod build --old-words older.wat > module.wasm\n  \
    wmod explain Index";

// the help text of each option
const PROFILE: &str =
    "1, 2, 3 or 4: floats under 3 and 4, sign extension under 2 and 4; 1.0 is 3 [default: 1]";

const FEATURES: &str =
    "Words with commas between them: features to add to the profile; `help` lists all";

const LIMIT: &str = "The maximum length of the input in bytes [default: 4294967295]";

const MAX_FUNCTIONS: &str =
    "The maximum number of functions, imported ones included [default: no limit]";

const MAX_LOCALS: &str = "The maximum number of locals a function declares [default: no limit]";

const MAX_OPEN: &str =
    "The maximum number of blocks, loops and ifs open at once [default: no limit]";

const OLD_WORDS: &str = "With `build`: accept the names of older tools too, such as get_local";

const FROM: &str = "With `check` or `stats`: read the names of the files from FILE, one a line";

const NULL: &str = "With `check` or `stats`: a zero byte ends each name of --from, not a line feed";

const OUTPUT: &str =
    "With `canon`, `show` or `build`: write to FILE, and change it only if all is written";

const QUIET: &str = "Print no line of detail for a refusal on standard error";

fn action_arg<'a>(alloc: Global) -> Arg<'a>
    ensures rule { rule_of result ≡ action_rule }
    ensures local { result.global ≡ false }
{
    Arg::new(alloc, "ACTION")
        .required(true)
        .action(ArgAction::Set)
        .help("check, stats, canon, show, build, explain or help")
}

/// Returns an option that takes one value, shown as `value` in the help.
fn option_arg<'a>(alloc: Global, name: &'a str, value: &'a str, help: &'a str) -> Arg<'a>
    ensures rule { rule_of result ≡ option_rule name.entry.now }
    ensures local { result.global ≡ false }
{
    Arg::new(alloc, name)
        .long(name)
        .value_name(value)
        .action(ArgAction::Set)
        .help(help)
}

fn flag_arg<'a>(alloc: Global, name: &'a str, help: &'a str) -> Arg<'a>
    ensures rule { rule_of result ≡ flag_rule name.entry.now }
    ensures local { result.global ≡ false }
{
    Arg::new(alloc, name)
        .long(name)
        .action(ArgAction::SetTrue)
        .help(help)
}

/// Returns the argument with a second name of one letter.
fn with_short<'a>(arg: Arg<'a>, letter: char) -> Arg<'a>
    ensures rule { rule_of result ≡ with_letter letter (rule_of arg.entry) }
    ensures local { result.global ≡ arg.entry.global }
{
    arg.short(letter)
}

fn file_arg<'a>(alloc: Global) -> Arg<'a>
    ensures rule { rule_of result ≡ file_rule }
    ensures local { result.global ≡ false }
{
    Arg::new(alloc, "FILE").action(ArgAction::Append).help(
        "The file to read; standard input if FILE is missing or it is -. `check` and `stats` take several",
    )
}

/// Returns the command without arguments: its name, its version and its help texts.
fn bare_command<'a>(alloc: Global) -> Command<'a>
    ensures { app_of result ≡ versioned (codes "wmod") }
{
    Command::new(alloc, "wmod")
        .version("0.1")
        .about(ABOUT)
        .after_help(ANSWERS)
}

/// Adds the options on profiles, features and limits to the command, and `--old-words`.
fn with_rules_of_modules<'a>(alloc: Global, command: Command<'a>) -> Result<Command<'a>, AllocError>
    ensures { IfOk result (λ c. app_of c ≡ with_rules (app_of command.entry) module_rules) }
{
    command
        .arg(option_arg(alloc, "profile", "N", PROFILE))?
        .arg(option_arg(alloc, "features", "LIST", FEATURES))?
        .arg(option_arg(alloc, "limit", "N", LIMIT))?
        .arg(option_arg(alloc, "max-functions", "N", MAX_FUNCTIONS))?
        .arg(option_arg(alloc, "max-locals", "N", MAX_LOCALS))?
        .arg(option_arg(alloc, "max-open", "N", MAX_OPEN))?
        .arg(flag_arg(alloc, "old-words", OLD_WORDS))
}

/// Adds the options on files to the command, and `--quiet`.
fn with_rules_of_files<'a>(alloc: Global, command: Command<'a>) -> Result<Command<'a>, AllocError>
    ensures { IfOk result (λ c. app_of c ≡ with_rules (app_of command.entry) file_rules) }
{
    command
        .arg(option_arg(alloc, "from", "FILE", FROM))?
        .arg(with_short(flag_arg(alloc, "null", NULL), '0'))?
        .arg(with_short(option_arg(alloc, "output", "FILE", OUTPUT), 'o'))?
        .arg(with_short(flag_arg(alloc, "quiet", QUIET), 'q'))?
        .arg(file_arg(alloc))
}

/// Returns the command for `clap`. Fails with `AllocError` if memory is refused.
fn command<'a>(alloc: Global) -> Result<Command<'a>, AllocError>
    ensures { IfOk result (λ c. app_of c ≡ wmod) }
{
    let command = bare_command(alloc).arg(action_arg(alloc))?;
    let command = with_rules_of_modules(alloc, command)?;
    with_rules_of_files(alloc, command)
}

/// Returns the profile that the value of `--profile` names: `ONE` if the option is absent, and `None` if no
/// profile has this name.
fn profile_by(word: Option<&str>) -> Option<Profile>
    ensures { let said = option_map (λ s. s.now) word.entry in
        MatchOption result ((p : Profile) → IsProfile said p
        → ⊥) (IsProfile said) }
{
    match word {
        None => Some(Profile::ONE),
        Some(text) => profile_of(text),
    }
}

/// Returns the profile that `--profile` and `--features` give, or `None` if one of their values is wrong.
fn profile_in(matches: &ArgMatches<'_>) -> Option<Profile>
    ensures { let word = first_value (found_of matches.now) in
        MatchOption result ((p : Profile) → GivesProfile word p
        → ⊥) (GivesProfile word) }
{
    let base = profile_by(matches.get_str("profile"))?;
    with_features(base, matches.get_str("features"))
}

/// Returns the limit of the input in bytes: 2^32 - 1 if `--limit` is absent, and `None` if its value is wrong.
fn limit_by(word: Option<&str>) -> Option<u64>
    ensures { let said = option_map (λ s. s.now) word.entry in MatchOption result ((n : ℕ) → IsLimit said n
        → ⊥) (IsLimit said) }
{
    match word {
        None => Some(DEFAULT_LIMIT),
        Some(text) => limit_of(text),
    }
}

/// Returns a limit of the policy: `Some(None)`, no limit, if the option is absent, and `None` if its value is
/// wrong.
fn most_by(word: Option<&str>) -> Option<Option<u32>>
    ensures { let said = option_map (λ s. s.now) word.entry in
        MatchOption result ((most : Option ℕ) → IsMost said most
        → ⊥) (IsMost said) }
{
    match word {
        None => Some(None),
        Some(text) => most_of(text).map(Some),
    }
}

/// Returns the policy of the three `--max-` options, or `None` if one of their values is wrong.
fn policy_in(matches: &ArgMatches<'_>) -> Option<Policy>
    ensures { let word = first_value (found_of matches.now) in
        MatchOption result ((q : Policy) → IsPolicy word q
        → ⊥) (IsPolicy word) }
{
    Some(Policy {
        functions: most_by(matches.get_str("max-functions"))?,
        locals: most_by(matches.get_str("max-locals"))?,
        depth: most_by(matches.get_str("max-open"))?,
    })
}

/// Returns `Older` if `--old-words` is present, and `Standard` if it is absent. Returns `None` if the flag is
/// present and the action is not `build`.
fn spellings_by(flag: Option<&str>, action: Action) -> Option<Spellings>
    ensures { let said = option_map (λ s. s.now) flag.entry in
        MatchOption result ((s : Spellings) → IsSpellings said action s
        → ⊥) (IsSpellings said action) }
{
    match (flag, action) {
        (Some("true"), Action::Build) => Some(Spellings::Older),
        (Some("true"), _) => None,
        _ => Some(Spellings::Standard),
    }
}

/// Whether the flag with this name is present.
fn has_flag(matches: &ArgMatches<'_>, name: &str) -> bool
    ensures { IsTrue result ↔ Stands (first_value (found_of matches.now) name.now) }
{
    match matches.get_str(name) {
        Some("true") => true,
        _ => false,
    }
}

/// Returns the byte that ends each name of a list.
fn ending_in(matches: &ArgMatches<'_>) -> Ending
    ensures { IsEnding (first_value (found_of matches.now) (codes "null")) result }
{
    if has_flag(matches, "null") {
        Ending::Zero
    } else {
        Ending::Line
    }
}

/// Returns the inputs that `--from`, `--null` and FILE give. `is_for_many` says whether there may be several. Fails with
/// `Words` if there are none, and with `Memory` if memory is refused.
fn inputs_in<'a>(
    alloc: Global,
    matches: &ArgMatches<'a>,
    is_for_many: bool,
) -> Result<Inputs<'a>, LineFault>
    ensures ok { IfOk result (GivesInputs (first_value (found_of matches.now))
        (files_found (found_of matches.now)) (IsTrue is_for_many)) }
    ensures fault { IfErr result (λ e. ((e ≡ Words) × ((i : Inputs) → GivesInputs (first_value (found_of matches.now))
        (files_found (found_of matches.now)) (IsTrue is_for_many) i → ⊥))
        ⊎ (e ≡ Memory)) }
{
    match (matches.get_str("from"), matches.get_raw("FILE")) {
        (Some(list), None | Some([])) if is_for_many => Ok(Inputs::Listed(
            list,
            ending_in(matches),
        )),
        (Some(_), _) => Err(LineFault::Words),
        (None, _) if has_flag(matches, "null") => Err(LineFault::Words),
        (None, None | Some([])) => Ok(Inputs::One(None)),
        (None, Some([name])) => Ok(Inputs::One(Some(*name))),
        (None, Some(files)) if is_for_many => Ok(Inputs::Several(files.to_vec(alloc)?)),
        _ => Err(LineFault::Words),
    }
}

/// Returns the value of `--output`, or `None` if it is present and the action writes no module.
fn output_by(name: Option<&str>, writes: bool) -> Option<Option<&str>>
    ensures { let said = option_map (λ s. s.now) name.entry in
        MatchOption result ((IsSome said → IsTrue writes) → ⊥)
        (λ output. (said ≡ option_map (λ s. s.now) output) × (IsSome said → IsTrue writes)) }
{
    match name {
        Some(_) if !writes => None,
        _ => Some(name),
    }
}

/// Returns the line that the arguments describe. Fails with `Words` if there is none, and with `Memory` if
/// memory is refused.
fn read_line<'a>(alloc: Global, matches: &ArgMatches<'a>) -> Result<Line<'a>, LineFault>
    ensures ok { IfOk result (Says (first_value (found_of matches.now)) (files_found (found_of matches.now))) }
    ensures fault { IfErr result (λ e. ((e ≡ Words)
        × SaysNone (first_value (found_of matches.now)) (files_found (found_of matches.now)))
        ⊎ (e ≡ Memory)) }
{
    let Some(word) = matches.get_str("ACTION") else {
        return Err(LineFault::Words);
    };
    let Some(action) = action_of(word) else {
        return Err(LineFault::Words);
    };
    let Some(profile) = profile_in(matches) else {
        return Err(LineFault::Words);
    };
    let Some(limit) = limit_by(matches.get_str("limit")) else {
        return Err(LineFault::Words);
    };
    let Some(policy) = policy_in(matches) else {
        return Err(LineFault::Words);
    };
    let Some(spellings) = spellings_by(matches.get_str("old-words"), action) else {
        return Err(LineFault::Words);
    };
    let Some(output) = output_by(matches.get_str("output"), writes_module(word)) else {
        return Err(LineFault::Words);
    };
    let inputs = inputs_in(alloc, matches, takes_many(word))?;
    Ok(Line {
        action,
        profile,
        limit,
        policy,
        spellings,
        inputs,
        output,
        quiet: has_flag(matches, "quiet"),
    })
}

/// Whether neither a list nor a file to write is named.
fn names_no_other(matches: &ArgMatches<'_>) -> bool
    ensures { IsTrue result ↔ NamesNoOther (first_value (found_of matches.now)) }
{
    matches.get_str("from").is_none() && matches.get_str("output").is_none()
}

/// Returns what `explain` asks for. Fails with `Words` if FILE has several values, or if `--from` or `--output` is
/// present.
fn read_name<'a>(matches: &ArgMatches<'a>) -> Result<Request<'a>, LineFault>
    requires { first_value (found_of matches.now) (codes "ACTION") ≡ Some (codes "explain") }
    ensures ok { IfOk result (Asks (first_value (found_of matches.now)) (files_found (found_of matches.now))) }
    ensures fault { IfErr result (λ e. (e ≡ Words)
        × AsksNothing (first_value (found_of matches.now)) (files_found (found_of matches.now))) }
{
    match matches.get_raw("FILE") {
        _ if !names_no_other(matches) => Err(LineFault::Words),
        None | Some([]) => Ok(Request::Explain(None)),
        Some([name]) => Ok(Request::Explain(Some(*name))),
        _ => Err(LineFault::Words),
    }
}

/// Returns what `help` asks for. Fails with `Words` if FILE has several values or one that is no word for ACTION, or if
/// `--from` or `--output` is present.
fn read_topic<'a>(matches: &ArgMatches<'a>) -> Result<Request<'a>, LineFault>
    requires { first_value (found_of matches.now) (codes "ACTION") ≡ Some (codes "help") }
    ensures ok { IfOk result (Asks (first_value (found_of matches.now)) (files_found (found_of matches.now))) }
    ensures fault { IfErr result (λ e. (e ≡ Words)
        × AsksNothing (first_value (found_of matches.now)) (files_found (found_of matches.now))) }
{
    match matches.get_raw("FILE") {
        _ if !names_no_other(matches) => Err(LineFault::Words),
        None | Some([]) => Ok(Request::Help),
        Some([topic]) if is_action_word(topic) => Ok(Request::Help),
        _ => Err(LineFault::Words),
    }
}

/// Whether an action has the value `help` of `--features`.
fn asks_for_features(matches: &ArgMatches<'_>) -> bool
    ensures { let word = first_value (found_of matches.now) in
        IsTrue result ↔ (((text : List ℕ) × (word (codes "ACTION") ≡ Some text) × NamesAction text)
        × (word (codes "features") ≡ Some (codes "help"))) }
{
    match (matches.get_str("ACTION"), matches.get_str("features")) {
        (Some(action), Some("help")) => action_of(action).is_some(),
        _ => false,
    }
}

/// Returns what the arguments ask for. Fails with `Words` if they ask for nothing, and with `Memory` if memory is
/// refused.
fn read<'a>(alloc: Global, matches: &ArgMatches<'a>) -> Result<Request<'a>, LineFault>
    ensures ok { IfOk result (Asks (first_value (found_of matches.now)) (files_found (found_of matches.now))) }
    ensures fault { IfErr result (λ e. ((e ≡ Words)
        × AsksNothing (first_value (found_of matches.now)) (files_found (found_of matches.now)))
        ⊎ (e ≡ Memory)) }
{
    match matches.get_str("ACTION") {
        Some("explain") => read_name(matches),
        Some("help") => read_topic(matches),
        _ if asks_for_features(matches) => Ok(Request::Features),
        _ => match read_line(alloc, matches) {
            Ok(line) => Ok(Request::Run(line)),
            Err(fault) => Err(fault),
        },
    }
}

/// Parses the arguments, the first of which is the program's name. Fails with `Parser` if `clap` refuses them, or if
/// they have the flag for help or for the version. Fails with `Words` if a value is wrong. If memory is refused, it
/// fails with `Memory`, or with `Parser` if `clap` was refused it.
pub fn request<'a, S: AsStr>(alloc: Global, words: &'a [S]) -> Result<Request<'a>, LineFault>
    // `clap` accepts the arguments, and they ask for this.
    ensures ok { let texts = map S.text words.entry.now in
        IfOk result (λ r. (fault_of wmod texts ≡ []) × Asks (word_of texts) (files_of texts) r) }
    // Either `clap` has a fault of this kind, or it accepts the arguments and they ask for nothing, or memory was
    // refused.
    ensures fault { IfErr result (IsFaultOf (map S.text words.entry.now)) }
{
    match command(alloc)?.try_get_matches_from(words) {
        Ok(matches) => read(alloc, &matches),
        Err(error) => Err(LineFault::Parser(error)),
    }
}

/// Returns the text of the help. Fails with `AllocError` if memory is refused.
pub fn help_text(alloc: Global) -> Result<String, AllocError> {
    command(alloc)?.render_help()
}

/// An argument whose value is wrong, with that value.
#[derive(Clone, Copy, PartialEq, Eq, Debug)]
pub enum WrongWord<'a> {
    Action(&'a str),
    /// The word after `help`, if it is no word for ACTION.
    Topic(&'a str),
    Profile(&'a str),
    /// A word of the value of `--features` that names no feature.
    Feature(&'a str),
    Limit(&'a str),
    MaxFunctions(&'a str),
    MaxLocals(&'a str),
    MaxOpen(&'a str),
    /// The value of ACTION where `--old-words` is present and the action is not `build`.
    OldWords(&'a str),
    /// The value of ACTION where FILE has several values and the action takes one at most.
    Several(&'a str),
    /// The value of ACTION where `--from` is present and the action takes no list.
    From(&'a str),
    /// The first value of FILE where `--from` is present.
    Beside(&'a str),
    /// The flag `--null` where `--from` is absent.
    Null,
    /// The value of ACTION where `--output` is present and the action writes no module.
    Output(&'a str),
}

/// Writes that `word` is no value for the policy option `option`.
fn no_number<W: fmt::Write>(f: &mut fmt::Formatter<W>, word: &str, option: &str) -> fmt::Result {
    write!(
        f,
        "'{}' is no number for {option}: decimal digits, at most {}",
        Escaped(word),
        u32::MAX
    )
}

/// Writes that an action with this word does not take several values of FILE.
fn no_several_files<W: fmt::Write>(f: &mut fmt::Formatter<W>, word: &str) -> fmt::Result {
    match word {
        "explain" => write!(f, "{}", Wrong::Count),
        "help" => f.write_str("help takes one ACTION at most, such as show"),
        _ => write!(
            f,
            "'{}' takes one FILE at most: only check and stats take several",
            Escaped(word)
        ),
    }
}

impl fmt::Display for WrongWord<'_> {
    fn fmt<W: fmt::Write>(&self, f: &mut fmt::Formatter<W>) -> fmt::Result {
        match self {
            WrongWord::Action(word) | WrongWord::Topic(word) => write!(
                f,
                "'{}' is no action: check, stats, canon, show, build, explain or help",
                Escaped(word)
            ),
            WrongWord::Profile(word) => {
                write!(f, "'{}' is no profile: 1, 2, 3 or 1.0, 4", Escaped(word))
            }
            WrongWord::Feature(word) => write!(
                f,
                "{}",
                NoFeature {
                    word,
                    nearest: None
                }
            ),
            WrongWord::Limit(word) => write!(
                f,
                "'{}' is no limit: decimal digits, at most {MOST_LIMIT}",
                Escaped(word)
            ),
            WrongWord::MaxFunctions(word) => no_number(f, word, "--max-functions"),
            WrongWord::MaxLocals(word) => no_number(f, word, "--max-locals"),
            WrongWord::MaxOpen(word) => no_number(f, word, "--max-open"),
            WrongWord::OldWords(word) => write!(
                f,
                "'{}' takes no --old-words: only build does",
                Escaped(word)
            ),
            WrongWord::Several(word) => no_several_files(f, word),
            WrongWord::From(word) => write!(
                f,
                "'{}' takes no --from: only check and stats do",
                Escaped(word)
            ),
            WrongWord::Beside(word) => write!(
                f,
                "'{}' is a FILE beside --from: give one or the other",
                Escaped(word)
            ),
            WrongWord::Null => f.write_str("--null is only for --from"),
            WrongWord::Output(word) => write!(
                f,
                "'{}' takes no --output: only canon, show and build do",
                Escaped(word)
            ),
        }
    }
}

/// Returns the value of ACTION if it names no action, and is neither `explain` nor `help`.
fn no_action<'a>(matches: &ArgMatches<'a>) -> Option<&'a str>
    ensures { let word = first_value (found_of matches.now) (codes "ACTION") in
        MatchOption result (IfSome word IsActionWord)
        (λ text. (word ≡ Some text.now) × (IsActionWord text.now → ⊥)) }
{
    let text = matches.get_str("ACTION")?;
    if is_action_word(text) {
        None
    } else {
        Some(text)
    }
}

/// Returns the first value of FILE if ACTION is `help`, and that value is no word for ACTION.
fn no_topic<'a>(matches: &ArgMatches<'a>) -> Option<&'a str>
    ensures { let action = first_value (found_of matches.now) (codes "ACTION") in
        let topic = head_of (files_found (found_of matches.now)) in
        MatchOption result (action ≡ Some (codes "help") → IfSome topic IsActionWord)
        (λ text. (action ≡ Some (codes "help")) × (topic ≡ Some text.now) × (IsActionWord text.now → ⊥)) }
{
    let action = matches.get_str("ACTION")?;
    let topic = *matches.get_raw("FILE")?.first()?;
    if action != "help" || is_action_word(topic) {
        None
    } else {
        Some(topic)
    }
}

/// Returns the value of `--profile` if it names no profile.
fn no_profile<'a>(matches: &ArgMatches<'a>) -> Option<&'a str>
    ensures { let word = first_value (found_of matches.now) (codes "profile") in
        MatchOption result ((p : Profile) × IsProfile word p)
        (λ text. (word ≡ Some text.now) × ((p : Profile) → NamesProfile text.now p → ⊥)) }
{
    match matches.get_str("profile") {
        None => None,
        Some(word) => match profile_of(word) {
            Some(_) => None,
            None => Some(word),
        },
    }
}

/// Returns the first word of the value of `--features` that names no feature.
fn no_feature<'a>(matches: &ArgMatches<'a>) -> Option<&'a str>
    ensures { let said = first_value (found_of matches.now) (codes "features") in
        MatchOption result (IfSome said (λ list. (word : List ℕ) → Contains (words_in list) word
        → (features : List AFeature) × NamesFeatures word features))
        (λ text. (list : List ℕ) × (said ≡ Some list) × Contains (words_in list) text.now
        × ((features : List AFeature) → NamesFeatures text.now features → ⊥)) }
{
    let list = matches.get_str("features")?;
    match with_words(Profile::ONE, list) {
        Ok(_) => None,
        Err(word) => Some(word),
    }
}

/// Returns the value of `--limit` if it is no limit.
fn no_limit<'a>(matches: &ArgMatches<'a>) -> Option<&'a str>
    ensures { let word = first_value (found_of matches.now) (codes "limit") in
        MatchOption result ((n : ℕ) × IsLimit word n)
        (λ text. (word ≡ Some text.now) × ((n : ℕ) → IsLimit (Some text.now) n → ⊥)) }
{
    match matches.get_str("limit") {
        None => None,
        Some(text) => match limit_of(text) {
            Some(_) => None,
            None => Some(text),
        },
    }
}

/// Returns the value of this option if it is no limit of a policy.
fn no_most<'a>(matches: &ArgMatches<'a>, option: &str) -> Option<&'a str>
    ensures { let word = first_value (found_of matches.now) option.now in
        MatchOption result ((most : Option ℕ) × IsMost word most)
        (λ text. (word ≡ Some text.now) × ((most : Option ℕ) → IsMost (Some text.now) most → ⊥)) }
{
    let text = matches.get_str(option)?;
    match most_of(text) {
        Some(_) => None,
        None => Some(text),
    }
}

/// Returns the value of ACTION if `--old-words` is present and the action is not `build`.
fn no_build<'a>(matches: &ArgMatches<'a>) -> Option<&'a str>
    ensures { let word = first_value (found_of matches.now) in
        MatchOption result
        (Stands (word (codes "old-words")) → IfSome (word (codes "ACTION")) (λ text. text ≡ action_name Build))
        (λ text. Stands (word (codes "old-words")) × (word (codes "ACTION") ≡ Some text.now)
        × (text.now ≢ action_name Build)) }
{
    let flag = matches.get_str("old-words")?;
    let action = matches.get_str("ACTION")?;
    if flag != "true" {
        return None;
    }
    match action {
        "build" => None,
        _ => Some(action),
    }
}

/// Returns the value of ACTION if FILE has several values and the action takes one at most.
fn no_several<'a>(matches: &ArgMatches<'a>) -> Option<&'a str>
    ensures { let action = first_value (found_of matches.now) (codes "ACTION") in
        let files = files_found (found_of matches.now) in
        MatchOption result (1 < length files → IfSome action TakesMany)
        (λ text. (action ≡ Some text.now) × (TakesMany text.now → ⊥) × (1 < length files)) }
{
    let action = matches.get_str("ACTION")?;
    if takes_many(action) || matches.get_raw("FILE")?.len() <= 1 {
        None
    } else {
        Some(action)
    }
}

/// Returns the value of ACTION if `--from` is present and the action takes no list.
fn no_list<'a>(matches: &ArgMatches<'a>) -> Option<&'a str>
    ensures { let word = first_value (found_of matches.now) in
        MatchOption result (IsSome (word (codes "from")) → IfSome (word (codes "ACTION")) TakesMany)
        (λ text. (word (codes "ACTION") ≡ Some text.now) × (TakesMany text.now → ⊥)
        × IsSome (word (codes "from"))) }
{
    let action = matches.get_str("ACTION")?;
    if takes_many(action) || matches.get_str("from").is_none() {
        None
    } else {
        Some(action)
    }
}

/// Returns the first value of FILE if `--from` is present.
fn file_beside_list<'a>(matches: &ArgMatches<'a>) -> Option<&'a str>
    ensures { let from = first_value (found_of matches.now) (codes "from") in
        let file = head_of (files_found (found_of matches.now)) in
        MatchOption result (IsSome from → file ≡ None) (λ text. IsSome from × (file ≡ Some text.now)) }
{
    if matches.get_str("from").is_none() {
        return None;
    }
    matches.get_raw("FILE")?.first().copied()
}

/// Whether `--null` is present and `--from` is not.
fn is_null_alone(matches: &ArgMatches<'_>) -> bool
    ensures { let word = first_value (found_of matches.now) in
        IsTrue result ↔ (Stands (word (codes "null")) × (word (codes "from") ≡ None)) }
{
    has_flag(matches, "null") && matches.get_str("from").is_none()
}

/// Returns the value of ACTION if `--output` is present and the action writes no module.
fn no_output<'a>(matches: &ArgMatches<'a>) -> Option<&'a str>
    ensures { let word = first_value (found_of matches.now) in
        MatchOption result (IsSome (word (codes "output")) → IfSome (word (codes "ACTION")) WritesModule)
        (λ text. (word (codes "ACTION") ≡ Some text.now) × (WritesModule text.now → ⊥)
        × IsSome (word (codes "output"))) }
{
    let action = matches.get_str("ACTION")?;
    if writes_module(action) || matches.get_str("output").is_none() {
        None
    } else {
        Some(action)
    }
}

/// Returns the first wrong value among those of files, in the order several values of FILE, `--from`, FILE beside it,
/// `--null`, `--output`.
fn wrong_in_files<'a>(matches: &ArgMatches<'a>) -> Option<WrongWord<'a>>
    ensures { let word = first_value (found_of matches.now) in let files = files_found (found_of matches.now) in
        MatchOption result (FilesFit word files) (IsWrong word files) }
{
    if let Some(action) = no_several(matches) {
        return Some(WrongWord::Several(action));
    }
    if let Some(action) = no_list(matches) {
        return Some(WrongWord::From(action));
    }
    if let Some(file) = file_beside_list(matches) {
        return Some(WrongWord::Beside(file));
    }
    if is_null_alone(matches) {
        return Some(WrongWord::Null);
    }
    if let Some(action) = no_output(matches) {
        return Some(WrongWord::Output(action));
    }
    None
}

/// Returns the first wrong value of `--max-functions`, `--max-locals` and `--max-open`, in this order.
fn wrong_in_policy<'a>(matches: &ArgMatches<'a>) -> Option<WrongWord<'a>>
    ensures { let word = first_value (found_of matches.now) in
        MatchOption result ((q : Policy) × IsPolicy word q) (IsWrong word (files_found (found_of matches.now))) }
{
    if let Some(word) = no_most(matches, "max-functions") {
        return Some(WrongWord::MaxFunctions(word));
    }
    if let Some(word) = no_most(matches, "max-locals") {
        return Some(WrongWord::MaxLocals(word));
    }
    if let Some(word) = no_most(matches, "max-open") {
        return Some(WrongWord::MaxOpen(word));
    }
    None
}

/// Returns the first wrong value, in the order ACTION, the word after `help`, `--profile`, `--features`, `--limit`,
/// `--max-functions`, `--max-locals`, `--max-open`, `--old-words`, and then those of files. Returns `None` if no value is
/// wrong.
fn wrong_in<'a>(matches: &ArgMatches<'a>) -> Option<WrongWord<'a>>
    ensures { let word = first_value (found_of matches.now) in let files = files_found (found_of matches.now) in
        MatchOption result (NoneIsWrong word files) (IsWrong word files) }
{
    if let Some(word) = no_action(matches) {
        return Some(WrongWord::Action(word));
    }
    if let Some(word) = no_topic(matches) {
        return Some(WrongWord::Topic(word));
    }
    if let Some(word) = no_profile(matches) {
        return Some(WrongWord::Profile(word));
    }
    if let Some(word) = no_feature(matches) {
        return Some(WrongWord::Feature(word));
    }
    if let Some(word) = no_limit(matches) {
        return Some(WrongWord::Limit(word));
    }
    if let Some(word) = wrong_in_policy(matches) {
        return Some(word);
    }
    if let Some(action) = no_build(matches) {
        return Some(WrongWord::OldWords(action));
    }
    wrong_in_files(matches)
}

/// Returns the first wrong value among these arguments, the first of which is the program's name. Returns
/// `None` if no value is wrong, or if `clap` refuses the arguments. Fails with `AllocError` if memory is
/// refused.
pub fn wrong_word<'a, S: AsStr>(
    alloc: Global,
    words: &'a [S],
) -> Result<Option<WrongWord<'a>>, AllocError>
    ensures { let texts = map S.text words.entry.now in IfOk result (λ wrong.
        MatchOption wrong (fault_of wmod texts ≡ [] → NoneIsWrong (word_of texts) (files_of texts))
        (IsWrong (word_of texts) (files_of texts))) }
{
    match command(alloc)?.try_get_matches_from(words) {
        Ok(matches) => Ok(wrong_in(&matches)),
        Err(error) => match error.kind() {
            ErrorKind::OutOfMemory => Err(AllocError),
            _ => Ok(None),
        },
    }
}
