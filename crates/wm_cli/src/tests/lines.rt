//! Tests of the command line.

use super::rows::play;
use std::alloc::Global;
use std::process::Abort;
use std::test::Fail;
use wm_command::arguments::LineFault;
use wm_command::line::request;

/// Rows of arguments with the line that they give, or with the message for the wrong one.
const LINES: &str = r#"read wmod check = Check ONE 4294967295 None None None Standard None None
read wmod check --limit 007 - = Check ONE 7 None None None Standard Some("-") None
read wmod show = Show ONE 4294967295 None None None Standard None None
read wmod build = Build ONE 4294967295 None None None Standard None None
read wmod --limit=4611686018427387904 stats --profile 2 a.wasm = Stats TWO 4611686018427387904 None None None Standard Some("a.wasm") Some("a.wasm")
read wmod check --max-functions 7 = Check ONE 4294967295 Some(7) None None Standard None None
read wmod stats --max-locals 4294967295 = Stats ONE 4294967295 None Some(4294967295) None Standard None None
read wmod canon --max-open 0 = Canon ONE 4294967295 None None Some(0) Standard None None
read wmod --max-open=3 show --max-locals 002 --max-functions 1 = Show ONE 4294967295 Some(1) Some(2) Some(3) Standard None None
read wmod build --old-words a.wat = Build ONE 4294967295 None None None Older Some("a.wat") Some("a.wat")
read wmod --old-words build --max-locals 0 = Build ONE 4294967295 None Some(0) None Older None None
read wmod check --profile 3 = Check THREE 4294967295 None None None Standard None None
read wmod show --profile 4 - = Show FOUR 4294967295 None None None Standard Some("-") None
read wmod check --profile 1.0 = Check THREE 4294967295 None None None Standard None None
read wmod check --features sign-ext = Check TWO 4294967295 None None None Standard None None
read wmod stats --profile 1 --features=sign-ext a = Stats TWO 4294967295 None None None Standard Some("a") Some("a")
read wmod --features sign-ext canon --profile 2 = Canon TWO 4294967295 None None None Standard None None
read wmod show --features sign-ext --profile 3 = Show FOUR 4294967295 None None None Standard None None
read wmod build --profile 1.0 --features sign-ext,sign-ext = Build FOUR 4294967295 None None None Standard None None
read wmod check --profile 4 --features sign-ext,sign-ext,sign-ext a b = Check FOUR 4294967295 None None None Standard several ["a", "b"]
read wmod check --features call-indirect-overlong = Check ONE+long 4294967295 None None None Standard None None
read wmod show --profile 3 --features sign-ext,call-indirect-overlong = Show FOUR+long 4294967295 None None None Standard None None
read wmod check --profile 4 --features nontrapping-fptoint = Check FOUR+saturation 4294967295 None None None Standard None None
read wmod canon --features bulk-memory-opt,nontrapping-fptoint = Canon ONE+saturation+copies 4294967295 None None None Standard None None
read wmod check --features bulk-memory = Check ONE+copies+bulk 4294967295 None None None Standard None None
read wmod build --profile 3 --features bulk-memory-opt,bulk-memory = Build THREE+copies+bulk 4294967295 None None None Standard None None
read wmod check --features compilers = Check FOUR+long+saturation+copies+bulk 4294967295 None None None Standard None None
read wmod canon --profile 2 --features sign-ext,compilers a = Canon FOUR+long+saturation+copies+bulk 4294967295 None None None Standard Some("a") Some("a")
read wmod check --features call-indirect-overlong,sign-ext,call-indirect-overlong a = Check TWO+long 4294967295 None None None Standard Some("a") Some("a")
read wmod check --features help = features
read wmod --features=help build a b --profile 9 --from c -o d = features
read wmod help --features help = help
read wmod explain --features quux = explain None
read wmod run --features help = words 2
read wmod check --features sign-ext,help = words 2
read wmod check --features help,sign-ext = words 2
read wmod check --features HELP = words 2
read wmod check --features "" = words 2
read wmod check --features= = words 2
read wmod check --features , = words 2
read wmod check --features sign-ext, = words 2
read wmod check --features ,sign-ext = words 2
read wmod check --features sign-ext,,sign-ext = words 2
read wmod check --features signext = words 2
read wmod check --features BulkMemory = words 2
read wmod check --features compilers, = words 2
read wmod check --features Sign-ext = words 2
read wmod check --features sign-ext,quux = words 2
read wmod check --features sign-ext;sign-ext = words 2
read wmod check --features sign-ext --features sign-ext = parser 2
read wmod check --features = parser 2
read wmod explain Index = explain Some("Index")
read wmod --profile 3 explain --limit=7 = explain None
read wmod help = help
read wmod help show = help
read wmod help explain = help
read wmod --old-words help help = help
read wmod help Index = words 2
read wmod Explain Index = words 2
read wmod explain --help = parser 0
read wmod explain Index Type = words 2
read wmod explain --from a = words 2
read wmod explain -o a = words 2
read wmod explain -q -0 = explain None
read wmod explain --most = parser 2
read wmod run = words 2
read wmod check --profile 0 = words 2
read wmod check --profile 5 = words 2
read wmod check --profile 01 = words 2
read wmod check --profile one = words 2
read wmod check --profile 1. = words 2
read wmod check --profile 2.0 = words 2
read wmod check --profile "" = words 2
read wmod check --profile +1 = words 2
read wmod check --limit +7 = words 2
read wmod check --limit "" = words 2
read wmod check --limit 0x7 = words 2
read wmod check --limit 4611686018427387905 = words 2
read wmod check --limit 99999999999999999999 = words 2
read wmod check --max-functions +7 = words 2
read wmod check --max-functions "" = words 2
read wmod check --max-functions 0x7 = words 2
read wmod check --max-functions 4294967296 = words 2
read wmod check --max-locals +7 = words 2
read wmod check --max-locals "" = words 2
read wmod check --max-locals 0x7 = words 2
read wmod check --max-locals 4294967296 = words 2
read wmod check --max-open +7 = words 2
read wmod check --max-open "" = words 2
read wmod check --max-open 0x7 = words 2
read wmod check --max-open 4294967296 = words 2
read wmod check --old-words = words 2
read wmod stats --old-words = words 2
read wmod canon --old-words = words 2
read wmod --old-words show = words 2
read wmod = parser 2
read wmod check --limit = parser 2
read wmod run --profile = parser 2
read wmod check --profile=1 --profile=2 = parser 2
read wmod check --most 7 = parser 2
read wmod check --max-locals = parser 2
read wmod check --max-open=1 --max-open=2 = parser 2
read wmod build --old-words --old-words = parser 2
read wmod build --old-words=true = parser 2
read wmod check a b = Check ONE 4294967295 None None None Standard several ["a", "b"]
read wmod stats a --limit 7 - a = Stats ONE 7 None None None Standard several ["a", "-", "a"]
read wmod check --from a = Check ONE 4294967295 None None None Standard from "a" Line
read wmod stats -0 --from=- = Stats ONE 4294967295 None None None Standard from "-" Zero
read wmod check --quiet --null --from a = Check ONE 4294967295 None None None Standard from "a" Zero quiet
read wmod canon a -o b = Canon ONE 4294967295 None None None Standard Some("a") Some("a") to "b" Some("b")
read wmod build --output=- -q = Build ONE 4294967295 None None None Standard None None to "-" None quiet
read wmod show -ob = Show ONE 4294967295 None None None Standard None None to "b" Some("b")
read wmod canon a b = words 2
read wmod show --from a = words 2
read wmod check --from a b = words 2
read wmod check -0 = words 2
read wmod check -0 a = words 2
read wmod check -o a = words 2
read wmod stats --output "" = words 2
read wmod help check stats = words 2
read wmod help --from a = words 2
read wmod help --output a = words 2
read wmod check -o = parser 2
read wmod check --from = parser 2
read wmod check -q -q = parser 2
read wmod canon -o a -o b = parser 2
read wmod check --from=a --from=b = parser 2
read wmod check -x = parser 2
read wmod run --limit = parser 2
read wmod --help = parser 0
read wmod --version = parser 0
read wmod --most = parser 2
wrong wmod run --limit x = 'run' is no action: check, stats, canon, show, build, explain or help
wrong wmod help Run = 'Run' is no action: check, stats, canon, show, build, explain or help
wrong wmod help build --limit x = 'x' is no limit: decimal digits, at most 4611686018427387904
wrong wmod explain run = none
wrong wmod CHECK = 'CHECK' is no action: check, stats, canon, show, build, explain or help
wrong wmod check --limit 0x10 = '0x10' is no limit: decimal digits, at most 4611686018427387904
wrong wmod check --profile 5 = '5' is no profile: 1, 2, 3 or 1.0, 4
wrong wmod check --profile "" = '' is no profile: 1, 2, 3 or 1.0, 4
wrong wmod run --profile 5 --limit x --max-functions x --max-locals x --max-open x --old-words = 'run' is no action: check, stats, canon, show, build, explain or help
wrong wmod check --profile 5 --limit x --max-functions x --max-locals x --max-open x --old-words = '5' is no profile: 1, 2, 3 or 1.0, 4
wrong wmod check --features quux --limit x --old-words = 'quux' is no feature; wmod check --features help lists all
wrong wmod check --features sign-ext,quux,b = 'quux' is no feature; wmod check --features help lists all
wrong wmod check --features sign-ext,,quux = --features has an empty word: give words with commas between them, such as sign-ext
wrong wmod check --features quux, --profile 7 = '7' is no profile: 1, 2, 3 or 1.0, 4
wrong wmod check --features "" = --features has an empty word: give words with commas between them, such as sign-ext
wrong wmod check --features sign-ext = none
wrong wmod run --features quux = 'run' is no action: check, stats, canon, show, build, explain or help
wrong wmod check --limit x --max-functions x --max-locals x --max-open x --old-words = 'x' is no limit: decimal digits, at most 4611686018427387904
wrong wmod check --max-functions x --max-locals x --max-open x --old-words = 'x' is no number for --max-functions: decimal digits, at most 4294967295
wrong wmod check --max-locals x --max-open x --old-words = 'x' is no number for --max-locals: decimal digits, at most 4294967295
wrong wmod check --max-open x --old-words = 'x' is no number for --max-open: decimal digits, at most 4294967295
wrong wmod check --old-words = 'check' takes no --old-words: only build does
wrong wmod check --limit 7 --max-functions 0 --max-locals 0 --max-open 0 a = none
wrong wmod build --old-words = none
wrong wmod canon a b -o c --from d -0 = 'canon' takes one FILE at most: only check and stats take several
wrong wmod explain a b = explain takes one NAME of a refusal, such as Index
wrong wmod help check stats = help takes one ACTION at most, such as show
wrong wmod help a stats = 'a' is no action: check, stats, canon, show, build, explain or help
wrong wmod canon a --from d = 'canon' takes no --from: only check and stats do
wrong wmod check a b --from d -o c = 'a' is a FILE beside --from: give one or the other
wrong wmod check -0 a -o c = --null is only for --from
wrong wmod check a -o c = 'check' takes no --output: only canon, show and build do
wrong wmod check a b = none
wrong wmod check --from a -0 -q = none
wrong wmod show -o a b = none
wrong wmod --old-words show a b = 'show' takes no --old-words: only build does
wrong wmod check --profile 4 --limit 7 a = none
wrong wmod --most = none"#;

const HELP: &str = "Checks and converts WebAssembly 1.0 modules, reading them once.\n\n  \
    check    print `valid`, or why the input is refused and where\n  \
    stats    print five figures about the function bodies of a valid module\n  \
    canon    write a valid module in canonical binary form: shortest numbers, no custom sections\n  \
    show     write a valid module as text: one line per field, and one per instruction\n  \
    build    read a module as text, and write it in canonical binary form\n  \
    explain  print what the NAME of a refusal means: `wmod explain NAME`\n\n\
    Usage: wmod [OPTIONS] <ACTION> [FILE]...\n\n\
    Arguments:\n  \
    <ACTION>   check, stats, canon, show, build, explain or help\n  \
    [FILE]...  The file to read; standard input if FILE is missing or it is -. `check` and `stats` take several\n\n\
    Options:\n      \
    --profile <N>        1, 2, 3 or 4: floats under 3 and 4, sign extension under 2 and 4; 1.0 is 3 [default: 1]\n      \
    --features <LIST>    Words with commas between them: features to add to the profile; `help` lists all\n      \
    --limit <N>          The maximum length of the input in bytes [default: 4294967295]\n      \
    --max-functions <N>  The maximum number of functions, imported ones included [default: no limit]\n      \
    --max-locals <N>     The maximum number of locals a function declares [default: no limit]\n      \
    --max-open <N>       The maximum number of blocks, loops and ifs open at once [default: no limit]\n      \
    --old-words          With `build`: accept the names of older tools too, such as get_local\n      \
    --from <FILE>        With `check` or `stats`: read the names of the files from FILE, one a line\n  \
    -0, --null               With `check` or `stats`: a zero byte ends each name of --from, not a line feed\n  \
    -o, --output <FILE>      With `canon`, `show` or `build`: write to FILE, and change it only if all is written\n  \
    -q, --quiet              Print no line of detail for a refusal on standard error\n  \
    -h, --help               Print help\n  \
    -V, --version            Print version\n\n\
    Any other input gives `refused at N: NAME`: N bytes were read when it was decided.\n\
    `build` prints `text refused at N (LINE:COLUMN): NAME` for a wrong text: N is the offset of the deciding\n\
    token, and LINE and COLUMN are where it begins.\n\
    It prints `module refused at N: NAME` for an invalid module: N counts bytes of its canonical binary.\n\
    `wmod explain NAME` explains a NAME.\n\n\
    `check` and `stats` print a line for each of several files, such as `FILE: valid`. The run goes on after a\n\
    refusal or a file that cannot be read, and the greatest exit status is returned.\n\n\
    A module of 30 bytes may declare 2^32 - 1 locals, which `show` writes as 17 GB of text. For untrusted\n\
    modules set --max-functions F and --max-locals L: locals then take at most about 4 F L bytes.\n\n\
    Exit status: 0 done, 1 refused, 2 wrong arguments, 3 cannot read or write, 4 out of memory.\n\n\
    Examples:\n  \
    wmod check module.wasm\n  \
    wmod check --profile 3 with_floats.wasm\n  \
    wmod check --features compilers compiled.wasm\n  \
    wmod stats --limit 1000000 < module.wasm\n  \
    wmod check first.wasm second.wasm\n  \
    find modules -name '*.wasm' -print0 | wmod check --from - --null\n  \
    wmod canon module.wasm > canonical.wasm\n  \
    wmod show module.wasm > module.wat\n  \
    wmod show --max-functions 1000 --max-locals 1000 stranger.wasm > stranger.wat\n  \
    wmod build module.wat --output module.wasm\n  \
    wmod build --old-words older.wat > module.wasm\n  \
    wmod explain Index\n";

const MISSING: &str = "error: the following required arguments were not provided:\n  <ACTION>\n\n\
    Usage: wmod <ACTION> [FILE]...\n\n\
    For more information, try '--help'.\n";

#[test]
fn lines(rt: HostRuntime) -> Result<(), Fail> {
    play(&rt, rt.alloc(), LINES)
}

/// Expects this text from `clap` for these arguments.
fn expect_said(rt: &impl Abort, alloc: Global, words: &[&str], wanted: &str) -> Result<(), Fail> {
    let Err(LineFault::Parser(error)) = request(alloc, words) else {
        assert!(rt; false, "no fault of the parser");
        return Ok(());
    };
    let text = format!(in alloc; "{error}")?;
    assert!(rt; text.as_str() == wanted, "{text}");
    Ok(())
}

#[test]
fn help_and_fault_texts(rt: HostRuntime) -> Result<(), Fail> {
    expect_said(&rt, rt.alloc(), &["wmod", "--help"], HELP)?;
    expect_said(&rt, rt.alloc(), &["wmod", "--version"], "wmod 0.1\n")?;
    expect_said(&rt, rt.alloc(), &["wmod"], MISSING)
}

/// Expects this text of a fault and its exit status.
fn expect_fault(
    rt: &impl Abort,
    alloc: Global,
    fault: &LineFault,
    wanted: &str,
) -> Result<(), Fail> {
    let text = format!(in alloc; "{fault}: {}", fault.code())?;
    assert!(rt; text.as_str() == wanted, "{text}");
    Ok(())
}

#[test]
fn texts_and_codes_of_faults(rt: HostRuntime) -> Result<(), Fail> {
    expect_fault(&rt, rt.alloc(), &LineFault::Words, "bad words: 2")?;
    expect_fault(&rt, rt.alloc(), &LineFault::Memory, "out of memory: 4")
}
