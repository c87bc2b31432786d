// What was read from a text: a value, and the place behind it. Of things that went into a buffer the value is how many there were.
#[derive(Clone, Copy, PartialEq, Eq, Debug)]
pub struct Read<T> {
    pub value: T,
    pub next: usize,
}
