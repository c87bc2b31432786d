// Standard input read whole and standard output written whole, for programs that turn one text into another.
#![tactic(auto)]

mod buffers;
#[cfg(test)]
mod tests;

ghost use Rattle.std.specs.Prelude.{◌≡◌, ◌<◌, ◌≤◌, length, take, drop, IfOk};
ghost use Rattle.std.specs.Io.KnownBytes.{Consumes, IsAtEnd};

pub use buffers::answer_buffer;
use std::io;
use std::io::Read;

// A read that failed: what it says of the failure is not kept.
#[derive(Clone, Copy, PartialEq, Eq, Debug)]
pub struct Unread;

// What an answer keeps of a read that failed.
trait Failure: Sized {
    fn of(error: io::Error) -> Self;
}

impl Failure for io::Error {
    fn of(error: io::Error) -> io::Error {
        error
    }
}

impl Failure for Unread {
    fn of(_error: io::Error) -> Unread {
        Unread
    }
}

// One read behind the first `done` bytes: how many there are then.
fn read_behind<R: Read, E: Failure>(from: &mut R, buf: &mut [u8], done: usize) -> Result<usize, E>
    requires { done ≤ length buf.old }
    ensures reached { IfOk result (λ n. (done ≤ n) × (n ≤ length buf.new)) }
    ensures front { take done buf.new ≡ take done buf.old }
    ensures bytes { IfOk result (λ n. Consumes (R.remaining from.old) (R.remaining from.new) (drop done (take n buf.new))) }
    ensures end { IfOk result (λ n. n ≡ done → done < length buf.new → IsAtEnd (R.remaining from.new)) }
{
    match from.read(&mut buf[done..]) {
        Ok(n) => Ok(done + n),
        Err(error) => Err(E::of(error)),
    }
}

// The loop of both calls below.
fn read_pieces<R: Read, E: Failure>(from: &mut R, buf: &mut [u8]) -> Result<usize, E>
    ensures long { length buf.new ≡ length buf.old }
    ensures within { IfOk result (λ n. n ≤ length buf.new) }
    ensures bytes { IfOk result (λ n. Consumes (R.remaining from.old) (R.remaining from.new) (take n buf.new)) }
    ensures end { IfOk result (λ n. n < length buf.new → IsAtEnd (R.remaining from.new)) }
{
    let mut done = 0usize;
    // as far as a read came, which no index counts
    while done < buf.len() {
        let more = read_behind(from, buf, done)?;
        if more == done {
            break;
        }
        done = more;
    }
    Ok(done)
}

// Reads until the input ends or the buffer is full, and answers how much came; a read that fails ends it with its error. A slow
// writer's pieces come one after the other.
pub fn read_input<R: Read>(from: &mut R, buf: &mut [u8]) -> io::Result<usize>
    ensures long { length buf.new ≡ length buf.old }
    ensures within { IfOk result (λ n. n ≤ length buf.new) }

    // Where it is known what the reader has: the buffer begins with it, and holds all of it unless it is full.
    ensures bytes { IfOk result (λ n. Consumes (R.remaining from.old) (R.remaining from.new) (take n buf.new)) }
    ensures end { IfOk result (λ n. n < length buf.new → IsAtEnd (R.remaining from.new)) }
{
    read_pieces::<R, io::Error>(from, buf)
}

// The same with `Unread` in the error's place, for who only says that a read failed; the answers can be compared.
pub fn read_or_unread<R: Read>(from: &mut R, buf: &mut [u8]) -> Result<usize, Unread>
    ensures long { length buf.new ≡ length buf.old }
    ensures within { IfOk result (λ n. n ≤ length buf.new) }

    // Where it is known what the reader has: the buffer begins with it, and holds all of it unless it is full.
    ensures bytes { IfOk result (λ n. Consumes (R.remaining from.old) (R.remaining from.new) (take n buf.new)) }
    ensures end { IfOk result (λ n. n < length buf.new → IsAtEnd (R.remaining from.new)) }
{
    read_pieces::<R, Unread>(from, buf)
}

// Writes all of a text, or says on standard error that it is cut.
pub fn write_output(rt: &(impl Print + Eprint), text: &[u8]) {
    if rt.write_all(text).is_err() {
        let _ = rt.eprintln("the output could not be written whole");
    }
}

pub fn say_unread(rt: &impl Eprint) {
    let _ = rt.eprintln("the input could not be read");
}

// A program that turns one text into another: standard input, cut at `I` bytes, through `f` to standard output. A result beyond the
// buffer is not written. The lengths stand in the type, so that the prover need not count to them.
pub fn turn<const I: usize, const O: usize, F: FnOnce(&[u8], &mut [u8]) -> usize>(
    rt: &HostRuntime,
    f: F,
)
    requires input_in_bounds { I < 9223372036854775808 }
    requires output_in_bounds { O < 9223372036854775808 }
    requires callable { (text : _) (out : _) → O ≡ length out.now → F.pre f text out }
{
    let mut input = [0u8; I];
    let Ok(n) = read_or_unread(&mut rt.stdin(), &mut input) else {
        say_unread(rt);
        return;
    };
    let mut output = [0u8; O];
    let m = f(&input[..n], &mut output);
    if m <= output.len() {
        write_output(rt, &output[..m]);
    }
}
