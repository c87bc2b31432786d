// Coordinates as SVG has them: thousandths, by whole-number arithmetic.
ghost use Rattle.std.specs.Prelude.{◌≡◌};
ghost use Rattle.text.specs.Writing.{Fits, Same, Wrote};
ghost use Rattle.shapes.specs.Places as places;

use geometry::Point;
use text::Writer;

fn thousandths(x: f64) -> u64
    ensures { result ≡ places.thousandths x }
{
    // as: Rust has no From between usize and u64
    float::round_away(float::absolute(x) * 1000.0) as u64
}

fn put_sign(w: &mut Writer, minus: bool, n: u64)
    requires { Fits w.old (places.sign_text minus n) }
    ensures put { Wrote w.old (places.sign_text minus n) w.new }
    ensures same { Same w.old w.new }
{
    if minus && n != 0 {
        w.byte(b'-');
    }
}

fn put_low(w: &mut Writer, n: u64)
    requires { Fits w.old (places.low_digits n) }
    ensures put { Wrote w.old (places.low_digits n) w.new }
    ensures same { Same w.old w.new }
{
    // as, three times: below 10, so the error of try_from could not occur
    w.byte(b'0' + (n / 100 % 10) as u8);
    w.byte(b'0' + (n / 10 % 10) as u8);
    w.byte(b'0' + (n % 10) as u8);
}

// `n` thousandths.
fn put_fixed(w: &mut Writer, minus: bool, n: u64)
    requires { Fits w.old (places.fixed_text minus n) }
    ensures put { Wrote w.old (places.fixed_text minus n) w.new }
    ensures same { Same w.old w.new }
{
    put_sign(w, minus, n);
    w.decimal(n / 1000);
    w.byte(b'.');
    put_low(w, n);
}

pub fn put_across(w: &mut Writer, x: f64)
    requires { Fits w.old (places.across_text x) }
    ensures put { Wrote w.old (places.across_text x) w.new }
    ensures same { Same w.old w.new }
{
    let n = thousandths(x);
    put_fixed(w, x < 0.0, n);
}

pub fn put_up(w: &mut Writer, y: f64)
    requires { Fits w.old (places.up_text y) }
    ensures put { Wrote w.old (places.up_text y) w.new }
    ensures same { Same w.old w.new }
{
    put_across(w, -y);
}

pub fn put_place(w: &mut Writer, p: Point)
    requires { Fits w.old (places.place_text p) }
    ensures put { Wrote w.old (places.place_text p) w.new }
    ensures same { Same w.old w.new }
{
    put_across(w, p.x);
    w.byte(b' ');
    put_up(w, p.y);
    w.byte(b' ');
}
