// The places of a buffer behind what is written.
ghost use Rattle.std.specs.Prelude.{◌≡◌, ◌++◌, ◌-◌, ◌≤◌, length, replicate, take};

// The places from `from` on become `value`, whose clones are equal to it.
pub fn fill_from<T: Copy>(s: &mut [T], from: usize, value: T)
    requires within { from ≤ length s.old }
    requires clones { T.is_infallible value }
    requires equal { (y : T) → T.is_clone value y → y ≡ value }
    ensures { s.new ≡ take from s.old ++ replicate (length s.old - from) value }
{
    s[from..].fill(value);
}
