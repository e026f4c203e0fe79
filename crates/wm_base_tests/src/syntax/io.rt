//! Tests of sources and destinations that fail.

ghost use Rattle.std.specs.Prelude.{◌≡◌, IfOk};

use crate::scripts::{Scripted, play, shown, unknown, word_of};
use std::alloc::Global;
use std::fmt::Debug;
use std::io;
use std::io::{ErrorKind, Read, Write};
use std::process::Abort;
use wm_syntax::io::input::Input;
use wm_syntax::io::output::Output;
use wm_syntax::io::{Dest, Source, put_all};

// Reads up to three bytes, and returns the answer.
fn given(rt: &impl Abort, alloc: Global, source: &mut impl Source) -> String {
    let mut buf = [0u8; 3];
    match source.get(&mut buf) {
        Ok(count) => {
            assert!(rt; count <= buf.len());
            shown(rt, alloc, &buf[..count])
        }
        Err(_) => shown(rt, alloc, Fault),
    }
}

/// How a script writes an error.
#[derive(Debug, Drop)]
struct Fault;

impl<R: Read> Scripted for Input<R> {
    fn answer<A: Abort>(&mut self, rt: &A, alloc: Global, call: &str) -> String {
        match call {
            "get" => given(rt, alloc, self),
            "failed" => shown(rt, alloc, self.failed()),
            _ => unknown(rt, call),
        }
    }
}

// Returns an answer as text; an error is `Fault`.
fn told<T: Debug + Drop>(rt: &impl Abort, alloc: Global, answer: io::Result<T>) -> String {
    match answer {
        Ok(value) => shown(rt, alloc, value),
        Err(_) => shown(rt, alloc, Fault),
    }
}

impl<W: Write> Scripted for Output<W> {
    fn answer<A: Abort>(&mut self, rt: &A, alloc: Global, call: &str) -> String {
        let (word, with) = word_of(call);
        match word {
            "put" => told(rt, alloc, self.put(with.as_bytes())),
            "flush" => told(rt, alloc, self.flush()),
            "failed" => shown(rt, alloc, self.failed()),
            _ => unknown(rt, call),
        }
    }
}

#[test]
fn bytes_come_from_a_source(rt: HostRuntime) {
    let mut source = Input::new(&b"wasm"[..]);
    play(
        &rt,
        rt.alloc(),
        &mut source,
        "get = [119, 97, 115]
get = [109]
get = []
failed = false",
    );
    assert!(rt; source.into_inner().is_empty());
}

#[test]
fn bytes_go_to_a_destination(rt: HostRuntime) {
    let mut dest = Output::new(Vec::new(rt.alloc()));
    play(
        &rt,
        rt.alloc(),
        &mut dest,
        "put asm = 3
flush = ()
failed = false",
    );
    assert!(rt; dest.into_inner().as_slice() == b"asm".as_slice());
}

/// Fails with `Interrupted` at the first call, and then reads or writes 0 bytes.
#[derive(Drop)]
struct Unwilling {
    calls: u8,
}

impl Unwilling {
    fn answer(&mut self) -> io::Result<usize>
        ensures { IfOk result (λ n. n ≡ 0) }
    {
        if self.calls == 0 {
            self.calls = 1;
            return Err(io::Error::from(ErrorKind::Interrupted));
        }
        Ok(0)
    }
}

impl Read for Unwilling {
    fn read(&mut self, _buf: &mut [u8]) -> io::Result<usize> {
        self.answer()
    }
}

impl Write for Unwilling {
    fn write(&mut self, _buf: &[u8]) -> io::Result<usize> {
        self.answer()
    }

    fn flush(&mut self) -> io::Result<()> {
        self.answer()?;
        Ok(())
    }
}

#[test]
fn faults_of_a_source_stay(rt: HostRuntime) {
    play(
        &rt,
        rt.alloc(),
        &mut Input::new(Unwilling { calls: 0 }),
        "get = Fault
failed = true
get = []
failed = true",
    );
}

#[test]
fn a_flush_that_fails(rt: HostRuntime) {
    play(
        &rt,
        rt.alloc(),
        &mut Output::new(Unwilling { calls: 0 }),
        "flush = Fault
failed = true",
    );
}

#[test]
fn a_write_that_takes_nothing(rt: HostRuntime) {
    play(
        &rt,
        rt.alloc(),
        &mut Output::new(Unwilling { calls: 1 }),
        "put = 0
failed = false
put x = Fault
failed = true",
    );
}

/// A writer that takes one byte in each call.
#[derive(Drop)]
struct Slow {
    taken: Vec<u8>,
}

impl Write for Slow {
    fn write(&mut self, buf: &[u8]) -> io::Result<usize> {
        let Some(first) = buf.first() else {
            return Ok(0);
        };
        self.taken.push(*first)?;
        Ok(1)
    }

    fn flush(&mut self) -> io::Result<()> {
        Ok(())
    }
}

#[test]
fn all_is_put(rt: HostRuntime) {
    let mut dest = Output::new(Slow {
        taken: Vec::new(rt.alloc()),
    });
    assert!(rt; put_all(&mut dest, b"wasm") == Ok(()));
    assert!(rt; dest.into_inner().taken.as_slice() == b"wasm".as_slice());
}

#[test]
fn what_was_put_before_a_fault(rt: HostRuntime) {
    let mut dest = Output::new(Unwilling { calls: 1 });
    assert!(rt; put_all(&mut dest, b"wasm") == Err(0));
    assert!(rt; dest.failed());
}
