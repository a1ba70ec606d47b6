//! A small lane in memory: the numbers of those who held it, one for each hold.
ghost use Rattle.std.specs.Prelude.{◌≡◌, ◌⊎◌, refl, [], ◌∷◌, ◌++◌, None};

use lane_lock::Kept;
use std::alloc::{AllocError, Global};

#[derive(Drop)]
pub struct Row {
    pub numbers: Vec<u32>,
}

impl Kept for Row {
    type Opening = u32;

    type Entry = u32;

    type End = u32;

    ghost meaning = { record {
      opening = λ row. 0;
      entries = λ row. row.numbers.items;
      number_of = λ number. number;
      ending = λ row. None;
      at_home = λ pace row. Unit {0};
      later = λ a b. Unit {0};
    } };

    ghost later_itself = { λ a. tt };

    ghost later_chain = { λ a b c h k. tt };

    ghost later_opening = { λ a b h. refl };
}

impl Row {
    /// An empty lane with room for so many holds.
    pub fn new(alloc: Global, holds: usize) -> Result<Row, AllocError> {
        Ok(Row {
            numbers: Vec::with_capacity(alloc, holds)?,
        })
    }

    /// Adds the number, if there is room.
    pub fn add(&mut self, number: u32)
        ensures { (self.new.numbers.items ≡ self.old.numbers.items) ⊎ (self.new.numbers.items ≡ self.old.numbers.items ++ number ∷ []) }
    {
        if self.numbers.len() >= self.numbers.capacity() {
            return;
        }
        self.numbers.push_reserved(number);
    }

    /// How often the number held the lane.
    pub fn made_by(&self, number: u32) -> usize {
        self.numbers.iter().filter(|&&made| made == number).count()
    }
}
