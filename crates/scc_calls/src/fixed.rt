//! What no call of a container changes.

/// What no call of a container changes. Contracts speak of it; no code makes one.
pub struct Setting<H> {
    pub hasher: H,
    /// The number of first bits of each hash that are skipped when a bucket is named.
    pub skipped: u32,
    /// The minimum: no resize goes below this number of slots.
    pub minimum: usize,
    /// The maximum: a cache doesn't grow above this number of slots. It is 0 in the other kinds.
    pub maximum: usize,
}

/// What a part is made for. Contracts speak of it; no code makes one.
pub struct Request<H> {
    pub hasher: H,
    /// The number of first bits of each hash that are skipped when a bucket is named.
    pub skipped: u32,
    /// The least number of slots; 0 for no array.
    pub slots: usize,
    /// The maximum that is asked for: a cache shouldn't grow above this number of slots. The other kinds don't use it.
    pub maximum: usize,
}
