// The program's words. Each is the name of a file with a job's text, and the job is paved; or that name, a tab and the letters of
// calls, which are made on a state of the job.
ghost use Rattle.std.specs.Prelude.{◌≤◌, length};

use calls::run;
use job_text::TextJob;
use showing::line;
use standard::{answer_buffer, read_or_unread};
use std::rt::{Env, Files};
use std::{env, fs, io};

// The bytes of a file that 65,536 bytes hold; none, and a line on standard error, where it cannot be opened or read.
fn read_file<'a>(rt: &(impl Files + Eprint), path: &str, input: &'a mut [u8; 65536]) -> &'a [u8]
    ensures { length result.now ≤ 65536 }
{
    let mut file = match fs::open(rt, path) {
        Ok(file) => file,
        Err(error) => {
            let _ = eprintln!(rt; "{path}: {error}");
            return &[];
        }
    };
    let Ok(n) = read_or_unread(&mut file, input) else {
        let _ = eprintln!(rt; "{path}: it could not be read");
        return &[];
    };
    &input[..n]
}

fn pave(rt: &impl Print, text: &[u8]) {
    let mut out = answer_buffer();
    let n = plate_text::pave_text(text, &mut out);
    let _ = rt.write_all(&out[..n]);
}

fn call(rt: &impl Print, text: &[u8], letters: &[u8]) {
    let mut read = TextJob::none();
    if read.read(text).is_ok() {
        run(rt, &read.job(), letters);
    }
}

fn answer(rt: &(impl Files + Print + Eprint), word: &str) {
    line(rt, word.as_bytes());
    let mut input = [0u8; 65536];
    match word.split_once(['\t', '\n']) {
        None => {
            let text = read_file(rt, word, &mut input);
            pave(rt, text);
        }
        Some((name, letters)) => {
            let text = read_file(rt, name, &mut input);
            call(rt, text, letters.as_bytes());
        }
    }
}

pub fn answer_words(rt: &(impl Env + Alloc + Files + Print + Eprint)) -> io::Result<()> {
    for word in env::args(rt)?.skip(1) {
        answer(rt, word.as_str());
    }
    Ok(())
}
