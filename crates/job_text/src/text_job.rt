// The job of a text, with the arrays that it was read into.
ghost use Rattle.std.specs.Prelude.{◌≡◌, IfErr, MatchResult, Ok, Err};
ghost use Rattle.input.specs.Job.{job_of};
ghost use Rattle.job_text.specs.Reading as texts;
ghost use Rattle.job_text.specs.Answers.{job_answer, no_job};

use crate::jobs::{JobRead, TextError, read_job};
use input::Job;
use std::marker::Model;

// What is read of no text.
const NO_READ: JobRead = JobRead {
    size: 0.0,
    pairs: 0,
    loops: 0,
};

#[derive(Drop)]
pub struct TextJob {
    coords: [f64; 4096],
    loop_lengths: [u16; 16],
    read: JobRead,
}

// Clauses see the job: the arrays begin with its coordinates and its loop lengths.
impl Model for TextJob {
    ghost use Rattle.std.specs.Prelude.{◌*◌, ◌≤◌, take};
    ghost use Rattle.input.specs.Defaults.{defaults};
    ghost use Rattle.input.specs.Job.{Job, job, loop_limit, pair_limit};

    ghost Value = { Job };

    ghost view = { λ a. job (take (a.read.pairs * 2) a.coords) (take a.read.loops a.loop_lengths) a.read.size defaults };

    ghost invariant = { λ a. (a.read.pairs ≤ pair_limit) × (a.read.loops ≤ loop_limit) };
}

impl TextJob {
    // The arrays before a text is read: the job of no text, without points and loops.
    pub fn none() -> TextJob
        ensures { result ≡ no_job }
    {
        TextJob {
            coords: [0.0; 4096],
            loop_lengths: [0; 16],
            read: NO_READ,
        }
    }

    // Reads the job of a text where the arrays stand, since they are large to be moved; or answers why it gives none, and then the job
    // is that of no text.
    pub fn read(&mut self, text: &[u8]) -> Result<(), TextError>
        ensures read { MatchResult result (λ _. Ok self.new ≡ job_answer (texts.read_job text.now)) (λ e. Err e ≡ job_answer (texts.read_job text.now)) }
        ensures none { IfErr result (λ _. self.new ≡ no_job) }
    {
        self.read = NO_READ;
        self.read = read_job(text, &mut self.coords, &mut self.loop_lengths)?;
        Ok(())
    }

    // The job, in the arrays.
    pub fn job(&self) -> Job<'_>
        ensures { job_of result ≡ self.now }
    {
        self.read.job(&self.coords, &self.loop_lengths)
    }
}
