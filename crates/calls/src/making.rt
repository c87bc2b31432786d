// Row, closing and fan calls on a state, one after the other.
ghost use Rattle.std.specs.Prelude.{◌≡◌};
ghost use Rattle.state.specs.Call.{answer_counts, left};
ghost use Rattle.state.specs.Lent.{Same, held_in};
ghost use Rattle.state.specs.Refusals.{answered};
ghost use Rattle.input.specs.Job.{job_of};
ghost use Rattle.calls.specs.Calls as calls;

use crate::starting::Start;
use input::Job;
use showing::{show_refused, show_state};
use state::{Counts, Lent, Refusal};

// What a letter stands for: the closings, the fan, or a row on a front.
#[derive(Clone, Copy)]
enum Call {
    Close,
    Fan,
    Row(u64),
}

impl From<u8> for Call {
    ghost from_gives = { λ letter call. call ≡ calls.call_of letter };

    fn from(letter: u8) -> Call {
        match letter {
            b'c' => Call::Close,
            b'f' => Call::Fan,
            _ => Call::Row(u64::from(letter % 16)),
        }
    }
}

impl Call {
    fn make(self, job: &Job, lent: &mut Lent, counts: Counts) -> Result<Counts, Refusal>
        ensures same { Same lent.old lent.new }
        ensures left { left (answered result) (held_in lent.new counts) ≡ calls.made (job_of job.now) self (held_in lent.old counts) }
    {
        match self {
            Call::Close => closing::close(job, lent, counts),
            Call::Fan => fan::fan(job, lent, counts),
            Call::Row(front) => row::row(job, front, lent, counts),
        }
    }
}

// The counts after an answer. A refusal is printed, and changes nothing.
fn counts_after(rt: &impl Print, counts: Counts, answer: Result<Counts, Refusal>) -> Counts
    ensures { result ≡ answer_counts counts (answered answer) }
{
    match answer {
        Ok(more) => more,
        Err(refusal) => {
            show_refused(rt, refusal.number());
            counts
        }
    }
}

// Makes the calls in turn. The counts after them.
fn make_all(rt: &impl Print, job: &Job, letters: &[u8], lent: &mut Lent, start: Counts) -> Counts
    ensures same { Same lent.old lent.new }
    ensures held { held_in lent.new result ≡ calls.after (job_of job.now) letters.now (held_in lent.old start) }
{
    let mut counts = start;
    for letter in letters {
        let answer = Call::from(*letter).make(job, lent, counts);
        counts = counts_after(rt, counts, answer);
    }
    counts
}

// The state of the first letter, the calls of the others, and the state that they come to. The buffers start full of other numbers.
pub fn run(rt: &impl Print, job: &Job, letters: &[u8]) {
    let [first, others @ ..] = letters else {
        return;
    };
    let mut points = [7.5; 8192];
    let mut quads = [9u16; 16384];
    let mut front_nodes = [9u16; 2048];
    let mut front_lengths = [9u16; 16];
    let mut lent = Lent {
        points: &mut points,
        quads: &mut quads,
        front_nodes: &mut front_nodes,
        front_lengths: &mut front_lengths,
    };
    match Start::from(*first).begin(job, &mut lent) {
        Err(refusal) => show_refused(rt, refusal.number()),
        Ok(counts) => {
            let counts = make_all(rt, job, others, &mut lent, counts);
            show_state(rt, &lent.read(), counts);
        }
    }
}
