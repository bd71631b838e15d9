//! What the reply to a list of at most 255 entries begins with.
ghost use Rattle.std.specs.Prelude.{◌≡◌, ◌≤◌, ◌<◌, ℕ, List, [], ◌∷◌, length, get_or, take};
ghost use Rattle.base.specs.Lists.{put};
ghost use Rattle.points.specs.Types.{gateway, logicals, tables};
ghost use Rattle.rules.specs.Deeds.{Piece, plain, held, sizes, told};

use crate::any::AnyReadable;
use frame::Reply;
use lists::any::{AnyLocated, AnyNamed};
use lists::{Entries, Located, Named};
use store::Store;

/// A list of at most 255 entries that can be read: its reply repeats the request's first bytes, and may say more before its first entry.
pub trait Readable: Entries {
    /// What the reply begins with, for the data of the request.
    ghost opening: { Self → List ℕ → List Piece };

    /// What is known of the data by then.
    ghost ready: { Self → List ℕ → Type 0 };

    /// How many bytes the reply begins with.
    fn opening_size(&self, bytes: &[u8]) -> usize
        requires { ready self.now bytes.now }
        ensures is { result ≡ sizes (opening self.now bytes.now) }
        ensures small { result ≤ 7 };

    /// Tells them, from place 6 of the reply on.
    fn begin(&self, bytes: &[u8], store: &Store, reply: &mut Reply)
        requires ready { ready self.now bytes.now }
        ensures is { reply.new ≡ put reply.old 6 (told gateway store.now (opening self.now bytes.now)) }
        ensures long { length (told gateway store.now (opening self.now bytes.now)) ≡ sizes (opening self.now bytes.now) };
}

/// All that such a list asks is known where it is checked, and its count says that it has 255 entries at most.
impl<E: Readable> AnyReadable for E {
    ghost opening = { λ self d. E.opening self d };

    ghost ready = { λ self d. E.ready self d };

    ghost tellable = { λ self d. Unit {0} };

    fn opening_size(&self, bytes: &[u8]) -> usize {
        // For what its clause `few` says.
        let _count = Entries::count(self);
        Readable::opening_size(self, bytes)
    }

    fn begin(&self, bytes: &[u8], store: &Store, reply: &mut Reply) {
        Readable::begin(self, bytes, store, reply);
    }
}

/// The count byte.
impl Readable for Named {
    ghost opening = { λ self d. plain (take 1 d) ∷ [] };

    ghost ready = { λ self d. 1 ≤ length d };

    fn opening_size(&self, bytes: &[u8]) -> usize {
        AnyNamed::from(*self).opening_size(bytes)
    }

    fn begin(&self, bytes: &[u8], store: &Store, reply: &mut Reply) {
        AnyNamed::from(*self).begin(bytes, store, reply);
    }
}

/// Table, start and count, then the revision of the table: its parameter 0.
impl Readable for Located<'_> {
    ghost opening = { λ self d. held tables (get_or d 0 0) 0 1 ∷ plain (take 3 d) ∷ [] };

    ghost ready = { λ self d. (3 ≤ length d) × (get_or d 0 0 < logicals gateway tables) };

    fn opening_size(&self, bytes: &[u8]) -> usize {
        AnyLocated::from(*self).opening_size(bytes)
    }

    fn begin(&self, bytes: &[u8], store: &Store, reply: &mut Reply) {
        AnyLocated::from(*self).begin(bytes, store, reply);
    }
}
