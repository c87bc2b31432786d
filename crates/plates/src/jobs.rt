// Jobs that no text can say: sizes, coordinates and options.
use calls::run;
use input::{Job, Options, default_limit, defaults};
use showing::line;

fn pave(rt: &impl Print, name: &[u8], h: f64, options: Options, coords: &[f64]) {
    line(rt, name);
    if let Ok(n) = u16::try_from(coords.len() / 2) {
        let job = Job {
            coords,
            loop_lengths: &[n],
            h,
            options,
        };
        run(rt, &job, b"j");
    }
}

// The square of side 3,000 with two sizes.
fn sizes(rt: &impl Print) {
    let square = [0.0, 0.0, 3000.0, 0.0, 3000.0, 3000.0, 0.0, 3000.0];
    pave(rt, b"size 0", 0.0, defaults(), &square);
    pave(rt, b"size 0.0005", 0.0005, defaults(), &square);
}

// Points closer than 0.001 × h count as one; at just that distance they do not.
fn close_points(rt: &impl Print) {
    let three = [0.0, 0.0, 1e-12, 0.0, 0.5, 0.5];
    pave(
        rt,
        b"three points, two of them 1e-12 apart",
        1.0,
        defaults(),
        &three,
    );
    let five = [0.0, 0.0, 1e-12, 0.0, 1.0, 0.0, 1.0, 1.0, 0.0, 1.0];
    pave(
        rt,
        b"five points, two of them 1e-12 apart",
        1.0,
        defaults(),
        &five,
    );
    let apart = [0.0, 0.0, 0.001, 0.0, 1.0, 0.0, 1.0, 1.0, 0.0, 1.0];
    pave(
        rt,
        b"five points, two of them 0.001 apart",
        1.0,
        defaults(),
        &apart,
    );
}

fn with_limit(corner_limit: f64) -> Options {
    Options {
        corner_limit,
        ..defaults()
    }
}

// Options that are no defaults, so that two of them exchanged give another answer. A corner limit of 0.8 refuses the row.
fn other_options(rt: &impl Print, name: &[u8], corner_limit: f64) {
    let options = Options {
        corner_margin: 1.5,
        min_edge_fraction: 0.3,
        front_gap: 5.0,
        max_row_rounds: 1,
        seam: false,
        corner_limit,
    };
    let square = [0.0, 0.0, 10000.0, 0.0, 10000.0, 10000.0, 0.0, 10000.0];
    pave(rt, name, 1000.0, options, &square);
}

// A front of four nodes whose corner values are all 0.8, the limit: it is not closed.
fn limit_met(rt: &impl Print) {
    let slanted = [0.0, 0.0, 5000.0, 0.0, 8000.0, 4000.0, 3000.0, 4000.0];
    pave(
        rt,
        b"corner values that are the limit",
        1000.0,
        with_limit(0.8),
        &slanted,
    );
}

pub fn jobs(rt: &impl Print) {
    sizes(rt);
    close_points(rt);
    other_options(rt, b"other options", default_limit());
    other_options(rt, b"other options and corner limit", 0.8);
    limit_met(rt);
}
