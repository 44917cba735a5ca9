// Whether lent room holds zeros only.

// From a word or a byte on.
pub fn is_blank_from<T: Copy + Default + PartialEq>(room: &[T], from: usize) -> bool {
    room.iter().skip(from).all(|&word| word == T::default())
}
