// The open ring numbers: for each number 0, or one more than the place of the entry that it opened.
ghost use Rattle.std.specs.Prelude.{◌≡◌, ◌<◌, slice_set};
ghost use Rattle.table.specs.Limits.{ring_number_count};
ghost use Rattle.builder.specs.Rings.{joined_at};

use table::limits::RING_NUMBER_COUNT;

#[derive(Clone, Copy)]
pub struct Opens {
    pub at: [u32; RING_NUMBER_COUNT],
}

impl Opens {
    // The list goes in whole and comes back whole, with another value for one number.
    pub fn join(mut self, number: usize, value: u32) -> Opens
        requires { number < ring_number_count }
        ensures { result ≡ joined_at self number value }
    {
        self.at[number] = value;
        self
    }
}

// A ring number's value set in the words that hold the list: the list goes through a join whole. Fewer words than numbers
// hold no list.
pub fn rejoin(rings: &mut [u32], number: usize, value: u32)
    requires { number < ring_number_count }
    ensures { rings.new ≡ slice_set rings.old number value }
{
    let Some(held) = rings.first_chunk_mut::<RING_NUMBER_COUNT>() else {
        table::poke(rings, number, value);
        return;
    };
    let at = *held;
    let joined = Opens { at }.join(number, value);
    let at = joined.at;
    *held = at;
}
