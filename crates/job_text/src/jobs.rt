// A job's text, whole.
ghost use Rattle.std.specs.Prelude.{◌*◌, ◌≡◌, ◌≤◌, length, take};
ghost use Rattle.input.specs.Defaults.{defaults};
ghost use Rattle.input.specs.Job.{job, job_of, loop_limit, pair_limit};
ghost use Rattle.job_text.specs.Answers.{JobReadIs, number_of};

use crate::lines::read_size;
use crate::loops::read_loops;
use input::Job;
use text::behind;

// A job read: its size, and how many pairs and loops were stored.
#[derive(Clone, Copy, PartialEq, Debug)]
pub struct JobRead {
    pub size: f64,
    pub pairs: usize,
    pub loops: usize,
}

impl JobRead {
    // The job, in the buffers that it was read into, with the default options. The two come one by one: this makes them one value.
    pub fn job<'a>(self, coords: &'a [f64], loop_lengths: &'a [u16]) -> Job<'a>
        requires { (self.pairs * 2 ≤ length coords.now) × (self.loops ≤ length loop_lengths.now) }
        ensures { job_of result ≡ job (take (self.pairs * 2) coords.now) (take self.loops loop_lengths.now) self.size defaults }
    {
        Job {
            coords: &coords[..self.pairs * 2],
            loop_lengths: &loop_lengths[..self.loops],
            h: self.size,
            options: input::defaults(),
        }
    }
}

// Why a text gives no job, with the number that refuses it: it is the text of none, or of one with too many loops or pairs.
#[derive(Clone, Copy, PartialEq, Eq, Debug)]
pub enum TextError {
    Unreadable = 11,
    TooMany = 1,
}

impl TextError {
    // as: Rust has no From between an enum and its numbers
    pub fn number(self) -> u32
        ensures { result ≡ number_of self }
    {
        self as u32
    }
}

// The job of a text, with its points and loop lengths from the first place of the buffers on, which come one by one: only `JobRead::job`
// makes the filled parts one value.
pub fn read_job(
    text: &[u8],
    coords: &mut [f64],
    loop_lengths: &mut [u16],
) -> Result<JobRead, TextError>
    requires { (length coords.old ≡ pair_limit * 2) × (length loop_lengths.old ≡ loop_limit) }
    ensures { JobReadIs text.now coords.new loop_lengths.new result }
{
    if 65536 < text.len() {
        return Err(TextError::Unreadable);
    }
    let size_at = behind(text, 0, b"size\t").ok_or(TextError::Unreadable)?;
    let size = read_size(text, size_at).ok_or(TextError::Unreadable)?;
    let outer_at = behind(text, size.next, b"\nouter\n").ok_or(TextError::Unreadable)?;
    let read = read_loops(text, outer_at, coords, loop_lengths).ok_or(TextError::Unreadable)?;
    if 16 < read.loops || 2048 < read.pairs {
        return Err(TextError::TooMany);
    }
    Ok(JobRead {
        size: size.value,
        pairs: read.pairs,
        loops: read.loops,
    })
}
