// Why a list is not accepted.
ghost use Rattle.std.specs.Prelude.{◌≡◌};
ghost use Rattle.tile_list.specs.Steps.{number_of};

// Each error with the number that refuses the list: a text that is no list's, a pair of nodes that is counted neither never nor twice, a corner that does not pass.
#[derive(Clone, Copy, PartialEq, Eq, Debug)]
pub enum ListError {
    Unreadable = 30,
    WrongPair = 31,
    WrongCorner = 32,
}

impl ListError {
    // as: Rust has no From between an enum and its numbers
    pub fn number(self) -> u32
        ensures { result ≡ number_of self }
    {
        self as u32
    }
}
