// Reading and writing at any place of a lent slice: a place outside it reads as nothing and takes nothing.

// A size as a u32, the largest u32 where it does not fit.
pub fn narrow(size: usize) -> u32 {
    u32::try_from(size).unwrap_or(u32::MAX)
}

// The item at a place, or another where there is no such place.
pub fn item_at<T: Copy>(items: &[T], at: usize, other: T) -> T {
    items.get(at).copied().unwrap_or(other)
}

// Puts an item at a place, if there is such a place.
pub fn put<T: Copy>(items: &mut [T], at: usize, item: T) {
    if let Some(place) = items.get_mut(at) {
        *place = item;
    }
}

// Adds bits to the byte at a place; true when the byte changed.
pub fn add_bits(bytes: &mut [u8], at: usize, bits: u8) -> bool {
    let Some(byte) = bytes.get_mut(at) else {
        return false;
    };
    let old = *byte;
    *byte = old | bits;
    *byte != old
}

// The first `count` items, all of them where there are fewer.
pub fn front<'a, T>(items: &'a [T], count: usize) -> &'a [T] {
    items.get(..count).unwrap_or(items)
}

// A lent slice that is filled from its front: what has no room is left out.
#[derive(Drop)]
pub struct Filling<'a, T> {
    items: &'a mut [T],
    filled: usize,
}

impl<'a, T: Copy> Filling<'a, T> {
    // Of an empty front.
    pub fn new(items: &'a mut [T]) -> Filling<'a, T> {
        Filling { items, filled: 0 }
    }

    // Puts an item behind those put before, if there is room.
    pub fn push(&mut self, item: T) {
        if let Some(place) = self.items.get_mut(self.filled) {
            *place = item;
            self.filled += 1;
        }
    }

    // Puts item after item.
    pub fn extend(&mut self, items: &[T]) {
        for &item in items {
            self.push(item);
        }
    }

    // How many items are put.
    pub fn count(&self) -> usize {
        self.filled
    }

    // The items that are put.
    pub fn so_far(&self) -> &[T] {
        front(self.items, self.filled)
    }
}
