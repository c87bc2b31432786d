// The states that calls are made on.
ghost use Rattle.std.specs.Prelude.{◌≡◌};
ghost use Rattle.state.specs.State.{no_counts};
ghost use Rattle.state.specs.Call as buffers;
ghost use Rattle.state.specs.Lent.{Same, held_in, lengths_in};
ghost use Rattle.state.specs.Refusals.{answered};
ghost use Rattle.input.specs.Job.{job_of};
ghost use Rattle.calls.specs.Calls as states;

use input::Job;
use state::{Counts, Lent, Refusal, put_all, put_numbers};

// What a letter stands for: the sampled loops, the whole job, or one front of so many nodes.
#[derive(Clone, Copy)]
pub enum Start {
    Sampled,
    Whole,
    OneFront(u8),
}

impl From<u8> for Start {
    ghost from_gives = { λ letter start. start ≡ states.start_of letter };

    fn from(letter: u8) -> Start {
        match letter {
            b's' => Start::Sampled,
            b'j' => Start::Whole,
            _ => Start::OneFront(letter % 16),
        }
    }
}

// The outline's points, with one front of the first `n`.
fn one_front(job: &Job, n: u8, lent: &mut Lent) -> Result<Counts, Refusal>
    requires { lengths_in lent.old ≡ buffers.lent }
    ensures same { Same lent.old lent.new }
    ensures left { buffers.left (answered result) (held_in lent.new no_counts) ≡ states.one_front (job_of job.now) n (held_in lent.old no_counts) }
{
    let coords = job.coords;
    if 8192 < coords.len() {
        return Err(Refusal::Shape);
    }
    put_all(lent.points, 0, coords);
    put_numbers(lent.front_nodes, 0, usize::from(n), 0);
    lent.front_lengths[0] = u16::from(n);
    Ok(Counts {
        points: coords.len() / 2,
        fronts: 1,
        ..Counts::default()
    })
}

impl Start {
    pub fn begin(self, job: &Job, lent: &mut Lent) -> Result<Counts, Refusal>
        requires { lengths_in lent.old ≡ buffers.lent }
        ensures same { Same lent.old lent.new }
        ensures left { buffers.left (answered result) (held_in lent.new no_counts) ≡ states.begun (job_of job.now) self (held_in lent.old no_counts) }
    {
        match self {
            Start::Sampled => sampling::sample(job, lent),
            Start::Whole => job::job(job, lent),
            Start::OneFront(n) => one_front(job, n, lent),
        }
    }
}
