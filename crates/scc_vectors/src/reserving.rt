// Reservations of the single-threaded containers, behind one trait.
use scc::{Reservation, hash_index, hash_map, hash_set};

// A single-threaded container that takes reservations.
pub(crate) trait Reserving {
    /// Adds a key that is missing, and returns whether it went in.
    fn add(&mut self, key: u64) -> bool;

    /// Adds `additional` slots to the minimum, and returns the token that releases them, or `None`.
    fn reserve_slots(&mut self, additional: usize) -> Option<Reservation>;

    /// Releases a token's slots. A refused token comes back.
    fn release_slots(&mut self, token: Reservation) -> Result<(), Reservation>;

    /// Returns the capacity, and both ends of its range.
    fn sizes(&self) -> (usize, usize, usize);
}

impl Reserving for hash_map::Owned<u64, u64> {
    fn add(&mut self, key: u64) -> bool {
        self.insert_sync(key, key).is_ok()
    }

    fn reserve_slots(&mut self, additional: usize) -> Option<Reservation> {
        self.reserve(additional)
    }

    fn release_slots(&mut self, token: Reservation) -> Result<(), Reservation> {
        self.release(token)
    }

    fn sizes(&self) -> (usize, usize, usize) {
        let range = self.capacity_range();
        (self.capacity(), *range.start(), *range.end())
    }
}

impl Reserving for hash_set::Owned<u64> {
    fn add(&mut self, key: u64) -> bool {
        self.insert_sync(key).is_ok()
    }

    fn reserve_slots(&mut self, additional: usize) -> Option<Reservation> {
        self.reserve(additional)
    }

    fn release_slots(&mut self, token: Reservation) -> Result<(), Reservation> {
        self.release(token)
    }

    fn sizes(&self) -> (usize, usize, usize) {
        let range = self.capacity_range();
        (self.capacity(), *range.start(), *range.end())
    }
}

impl Reserving for hash_index::Owned<u64, u64> {
    fn add(&mut self, key: u64) -> bool {
        self.insert_sync(key, key).is_ok()
    }

    fn reserve_slots(&mut self, additional: usize) -> Option<Reservation> {
        self.reserve(additional)
    }

    fn release_slots(&mut self, token: Reservation) -> Result<(), Reservation> {
        self.release(token)
    }

    fn sizes(&self) -> (usize, usize, usize) {
        let range = self.capacity_range();
        (self.capacity(), *range.start(), *range.end())
    }
}

/// Reserves 10000 slots, then the greatest number and 0, inserts the keys 0 to 15, and releases the slots. Returns the
/// capacity before and after the first reservation, whether the other two were refused, whether each key went in, and
/// the capacity at the end.
pub(crate) fn grows_and_gives_back<C: Reserving>(
    form: &mut C,
) -> (usize, usize, bool, bool, usize) {
    let before = form.sizes().0;
    let Some(token) = form.reserve_slots(10_000) else {
        return (before, 0, false, false, 0);
    };
    let grown = form.sizes().0;
    let refused = form.reserve_slots(usize::MAX).is_none() && form.reserve_slots(0).is_none();
    let added = add_sixteen(form);
    let is_back = token.additional_capacity() == 10_000 && form.release_slots(token).is_ok();
    (before, grown, refused, added && is_back, form.sizes().0)
}

/// Adds the keys 0 to 15, and returns whether each went in.
fn add_sixteen<C: Reserving>(form: &mut C) -> bool {
    for key in 0..16 {
        if !form.add(key) {
            return false;
        }
    }
    true
}

/// Returns the sizes of a new container, its sizes after it reserved 1000 slots, and after its first insertion.
pub(crate) fn sizes_without_array<C: Reserving>(
    form: &mut C,
) -> Option<[(usize, usize, usize); 3]> {
    let bare = form.sizes();
    let _token = form.reserve_slots(1000)?;
    let reserved = form.sizes();
    if form.add(1) {
        Some([bare, reserved, form.sizes()])
    } else {
        None
    }
}

/// Returns whether a token is refused and comes back with its slots.
fn refuses<C: Reserving>(form: &mut C, token: Reservation, slots: usize) -> bool {
    match form.release_slots(token) {
        Ok(()) => false,
        Err(back) => back.additional_capacity() == slots,
    }
}

/// Returns whether `second`, which has reserved 50 and 60 slots, takes a token of 100 slots from `first`, and then
/// refuses its own two, since only 10 reserved slots are left.
pub(crate) fn foreign_and_own_tokens<C: Reserving>(first: &mut C, second: &mut C) -> bool {
    let (Some(fifty), Some(sixty)) = (second.reserve_slots(50), second.reserve_slots(60)) else {
        return false;
    };
    let Some(foreign) = first.reserve_slots(100) else {
        return false;
    };
    let taken = second.sizes().1 == 110
        && second.release_slots(foreign).is_ok()
        && second.sizes().1 == 10;
    taken && refuses(second, sixty, 60) && refuses(second, fifty, 50) && second.sizes().1 == 10
}
