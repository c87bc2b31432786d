// The higher nodes along one chain of sides.
ghost use Rattle.std.specs.Iterator.{YieldsFirst, item_count};
ghost use Rattle.pair_counts.specs.Chains.{Walk, chain};

// What is left of a chain. A place is held as one more than its number, and 0 ends the chain: an Option<u16> has four bytes, in
// 24,576 places of fixed memory, and an Option<NonZeroU16> would have the one more too.
#[derive(Clone, Copy)]
pub struct Chain<'a> {
    pub highs: &'a [u16],
    pub behind: &'a [u16],
    pub place: u16,
    ghost walk: { Walk highs.now behind.now place },
}

impl<'a> Iterator for Chain<'a> {
    type Item = u16;

    ghost next_gives = { YieldsFirst (λ s. chain s.behind.now s.highs.now s.place) };

    ghost remaining = { item_count (λ s. chain s.behind.now s.highs.now s.place) };

    fn next(&mut self) -> Option<u16> {
        let i = usize::from(self.place.checked_sub(1)?);
        self.place = self.behind[i];
        Some(self.highs[i])
    }
}
