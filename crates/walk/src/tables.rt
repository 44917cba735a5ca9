// The tables that a walk fills.
ghost use Rattle.std.specs.Prelude.{◌≡◌, get_or};

use table::look;

#[derive(Drop)]
pub struct Tables<'a> {
    // For each atom its number in walk order plus 1, or 0.
    pub met: &'a mut [u32],
    // For each number in walk order the atom.
    pub walked: &'a mut [u32],
    // For each atom the place of its entry back, from 1, or 0 for a root.
    pub back: &'a mut [u32],
    // For each atom how many of its entries were taken.
    pub taken: &'a mut [u32],
    // The words of the pool.
    pub pairs: &'a mut [u32],
}

impl Tables<'_> {
    pub fn mark_of(&self, a: u32) -> u32
        ensures { result ≡ get_or self.now.met.now a 0 }
    {
        look(self.met, a as usize)
    }

    pub fn back_of(&self, a: u32) -> u32
        ensures { result ≡ get_or self.now.back.now a 0 }
    {
        look(self.back, a as usize)
    }

    pub fn taken_of(&self, a: u32) -> u32
        ensures { result ≡ get_or self.now.taken.now a 0 }
    {
        look(self.taken, a as usize)
    }
}
