//! The jobs: calls that a user of the library waits for, on many inputs of one kind.

use crate::answers::{Terms, build, build_checked, convert, judge_pieces, judge_whole, load, show};
use crate::awkward::{SHAPES, make};
use crate::binary::Binary;
use crate::digest::Digest;
use crate::random::Random;
use crate::stock::Template;
use crate::texts::text_of;
use std::alloc::Global;
use std::io;
use wm_rules::Policy;
use wm_syntax::profile::Profile;
use wm_write::in_memory::printed;

/// The sizes of pieces in bytes, used in turn.
const PIECES: [usize; 4] = [4096, 65_536, 16_384, 32_768];

/// A module of fewer bytes counts as small.
const SMALL: usize = 8192;

/// A job.
#[derive(Clone, Copy, PartialEq, Eq)]
pub enum Job {
    /// Validates large modules in pieces. About one in eight has a byte overwritten.
    Check,
    /// Validates small modules, each by a validator of its own.
    Small,
    /// Loads modules, and writes their canonical binaries.
    Canon,
    /// Loads modules, and writes their texts.
    Show,
    /// Reads texts, and writes the canonical binaries of their modules.
    Build,
    /// Validates modules of awkward shapes, some in pieces of one byte and some under a policy. Some are printed, and
    /// their text is read again.
    Awkward,
}

pub const JOBS: [Job; 6] = [
    Job::Check,
    Job::Small,
    Job::Canon,
    Job::Show,
    Job::Build,
    Job::Awkward,
];

/// The state of a job: its random numbers, its current input, and the digest of its answers.
#[derive(Drop)]
pub struct Bench {
    pub alloc: Global,
    pub random: Random,
    pub digest: Digest,
    made: Vec<u8>,
}

fn terms_of(template: &Template, turn: usize) -> Terms {
    Terms {
        profile: template.profile,
        policy: Policy::no_limits(),
        piece: PIECES[turn % 4],
    }
}

impl Bench {
    pub fn new(alloc: Global, seed: u64) -> Self {
        Bench {
            alloc,
            random: Random::new(seed),
            digest: Digest::new(),
            made: Vec::new(alloc),
        }
    }

    /// Overwrites a random byte of the input.
    fn damage(&mut self) {
        let place = self.random.below(self.made.len());
        let byte = self.random.byte();
        if let Some(there) = self.made.get_mut(place) {
            *there = byte;
        }
    }

    fn check(&mut self, template: &mut Template, turn: usize) -> io::Result<()> {
        template.make(&mut self.random, &mut self.made)?;
        if self.random.below(8) == 0 {
            self.damage();
        }
        let terms = terms_of(template, turn);
        judge_pieces(self.alloc, terms, &self.made, &mut self.digest);
        Ok(())
    }

    fn check_small(&mut self, template: &mut Template, turn: usize) -> io::Result<()> {
        template.make(&mut self.random, &mut self.made)?;
        if self.random.below(8) == 0 {
            self.damage();
        }
        let terms = terms_of(template, turn);
        if turn % 2 == 0 {
            judge_whole(self.alloc, terms, &self.made, &mut self.digest);
        } else {
            judge_pieces(self.alloc, terms, &self.made, &mut self.digest);
        }
        Ok(())
    }

    fn build(&mut self, template: &mut Template, turn: usize) -> io::Result<()> {
        template.make(&mut self.random, &mut self.made)?;
        let terms = terms_of(template, turn);
        if turn % 2 == 0 {
            build(self.alloc, terms, &self.made, &mut self.digest);
            Ok(())
        } else {
            build_checked(self.alloc, terms, &self.made, &mut self.digest)
        }
    }

    /// Does a job on one template, if the job is for modules of its size.
    fn step(&mut self, job: Job, template: &mut Template, turn: usize) -> io::Result<()> {
        let is_small = template.bytes.len() < SMALL;
        match job {
            Job::Check if !is_small => self.check(template, turn),
            Job::Small if is_small => self.check_small(template, turn),
            Job::Build => self.build(template, turn),
            Job::Canon => {
                template.make(&mut self.random, &mut self.made)?;
                let terms = terms_of(template, turn);
                convert(self.alloc, terms, &self.made, &mut self.digest)
            }
            Job::Show => {
                template.make(&mut self.random, &mut self.made)?;
                let terms = terms_of(template, turn);
                show(self.alloc, terms, &self.made, &mut self.digest)
            }
            _ => Ok(()),
        }
    }

    fn rounds(&mut self, job: Job, stock: &mut Vec<Template>, rounds: usize) -> io::Result<()> {
        for turn in 0..rounds {
            for template in stock.iter_mut() {
                self.step(job, template, turn)?;
            }
        }
        Ok(())
    }

    /// Loads a module, prints it, and builds its text.
    fn turn_around(&mut self, terms: Terms, binary: &[u8]) -> io::Result<()> {
        match load(self.alloc, terms, binary) {
            Err(refusal) => self.digest.refusal(&refusal),
            Ok(checked) => {
                if let Ok(text) = printed(self.alloc, &checked) {
                    build(self.alloc, terms, &text, &mut self.digest);
                }
            }
        }
        Ok(())
    }

    fn awkward(&mut self, rounds: usize, size: u32) -> io::Result<()> {
        let mut binary = Binary::new(self.alloc);
        let policy = Policy {
            functions: Some(500),
            locals: Some(1000),
            depth: Some(200),
        };
        for turn in 0..rounds {
            for shape in SHAPES {
                make(&mut binary, shape, &mut self.random, size)?;
                let terms = Terms {
                    profile: Profile::ONE,
                    policy: if turn % 8 == 6 {
                        policy
                    } else {
                        Policy::no_limits()
                    },
                    piece: if turn % 4 == 3 { 1 } else { 4096 },
                };
                if turn % 4 == 1 {
                    self.turn_around(terms, &binary.bytes)?;
                } else {
                    judge_pieces(self.alloc, terms, &binary.bytes, &mut self.digest);
                }
            }
        }
        Ok(())
    }

    /// Does a job `rounds` times.
    pub fn run(&mut self, job: Job, stock: &mut Vec<Template>, rounds: usize) -> io::Result<()> {
        match job {
            Job::Awkward => self.awkward(rounds, 20_000),
            Job::Build => {
                let mut texts = Vec::new(self.alloc);
                for template in stock.iter() {
                    texts.push(text_of(self.alloc, template, terms_of(template, 0))?)?;
                }
                self.rounds(job, &mut texts, rounds)
            }
            _ => self.rounds(job, stock, rounds),
        }
    }
}
