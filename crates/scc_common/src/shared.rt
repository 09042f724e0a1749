//! `Shared`: a hasher that several containers share.
ghost use Rattle.std.specs.Prelude.{◌≡◌, IfOk};
ghost use Rattle.std.specs.Arc.{arc_value};

use std::alloc::AllocError;
use std::hash::BuildHasher;
use std::marker::Model;
use std::sync::Arc;

/// One of several owners of a hasher. Containers made with owners of one hasher hash alike, and the hasher needn't be
/// cloned. A contract sees the hasher itself.
#[derive(Drop)]
pub struct Shared<H> {
    owner: Arc<H>,
}

impl<H> Model for Shared<H> {
    ghost use Rattle.std.specs.Arc.{arc_value};

    ghost Value = { H };

    ghost coded = { H.code };

    ghost view = { λ s. arc_value s.owner };
}

impl<H> Shared<H> {
    /// Makes a `Shared` of an owner of the hasher.
    pub fn new(owner: Arc<H>) -> Shared<H>
        ensures { result ≡ arc_value owner }
    {
        Shared { owner }
    }
}

/// A value that can be handed out once more, unchanged.
pub trait CloneOwner: Sized {
    /// Returns the value once more.
    fn clone_owner(&self) -> Result<Self, AllocError>
        ensures { IfOk result (λ s. s ≡ self.now) };
}

impl<H> CloneOwner for Shared<H> {
    /// Returns one more owner of the hasher. Fails if there are 2^63 - 1 owners.
    fn clone_owner(&self) -> Result<Shared<H>, AllocError> {
        Ok(Shared {
            owner: Arc::try_clone(&self.owner)?,
        })
    }
}

impl<H: BuildHasher> BuildHasher for Shared<H> {
    type Hasher = H::Hasher;

    ghost build_hasher = { H.build_hasher };

    #[inline(always)]
    fn build_hasher(&self) -> H::Hasher {
        self.owner.build_hasher()
    }
}
