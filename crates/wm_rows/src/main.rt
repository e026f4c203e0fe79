//! Answers rows of inputs. Each line of standard input is written with its answer after ` = `. `src/row.rt`
//! describes the lines. An empty line, and a heading that begins with `#`, are written as they are. The last line
//! has the numbers of rows and runs.
//!
//! This is no part of `wmod`. CI compares the output for `stdin` with `stdout`, so no function has a contract.
#![tactic(auto)]

mod answer;
mod changes;
mod pieces;
mod places;
mod row;
mod tally;
mod text;

use answer::answer;
use row::read_row;
use std::io;
use std::io::{BufRead, BufReader};
use tally::Tally;

/// Writes a line with its answer.
fn print_line<R: Print + AllocGlobal>(rt: &R, line: &str, tally: &mut Tally) -> io::Result<()> {
    if line.is_empty() || line.starts_with('#') {
        return println!(rt; "{line}");
    }
    let row = read_row(rt.alloc(), line)?;
    let answer = answer(rt.alloc(), &row, tally)?;
    println!(rt; "{line} = {answer}")
}

/// Writes the numbers of rows and runs.
fn print_tally<R: Print>(rt: &R, tally: &Tally) -> io::Result<()> {
    let Tally {
        rows,
        cuts,
        changes,
        valid,
    } = tally;
    println!(rt; "# {rows} rows, {cuts} cuts in two, {changes} changes of a byte ({valid} valid)")
}

fn main(rt: HostRuntime) -> io::Result<()> {
    let alloc = rt.alloc();
    let mut tally = Tally::new();
    for line in BufReader::new(alloc, rt.reader())?.lines(alloc) {
        print_line(&rt, line?.as_str(), &mut tally)?;
    }
    print_tally(&rt, &tally)
}
