//! What the reply to a list that is read begins with, whatever its number of entries.
ghost use Rattle.std.specs.Prelude.{◌≡◌, ◌≤◌, ◌<◌, ◌/◌, ℕ, List, [], ◌∷◌, length, get_or, take};
ghost use Rattle.base.specs.Lists.{put};
ghost use Rattle.points.specs.Types.{gateway, logicals, tables};
ghost use Rattle.rules.specs.Deeds.{Piece, plain, held, sizes, told};

use frame::Reply;
use lists::any::{AnyEntries, AnyLocated, AnyNamed};
use points::{Logical, Parameter};
use store::Store;

/// The index of the point type of the tables.
const TABLES: usize = 2;

/// A list that can be read: its reply repeats the request's first bytes, and may say more before its first entry.
pub trait AnyReadable: AnyEntries {
    /// What the reply begins with, for the data of the request.
    ghost opening: { Self → List ℕ → List Piece };

    /// What is known of the list and its data where the list is checked.
    ghost ready: { Self → List ℕ → Type 0 };

    /// What is known besides where it is told.
    ghost tellable: { Self → List ℕ → Type 0 };

    /// How many bytes the reply begins with. A list that is ready has 255 entries at most.
    fn opening_size(&self, bytes: &[u8]) -> usize
        requires { ready self.now bytes.now }
        ensures is { result ≡ sizes (opening self.now bytes.now) }
        ensures small { result ≤ 7 }
        ensures few { Self.count self.now ≤ 255 };

    /// Tells them, from place 6 of the reply on.
    fn begin(&self, bytes: &[u8], store: &Store, reply: &mut Reply)
        requires ready { ready self.now bytes.now }
        requires tellable { tellable self.now bytes.now }
        ensures is { reply.new ≡ put reply.old 6 (told gateway store.now (opening self.now bytes.now)) }
        ensures long { length (told gateway store.now (opening self.now bytes.now)) ≡ sizes (opening self.now bytes.now) };
}

/// The count byte.
impl AnyReadable for AnyNamed {
    ghost opening = { λ self d. plain (take 1 d) ∷ [] };

    ghost ready = { λ self d. (1 ≤ length d) × (self.count ≤ 255) };

    ghost tellable = { λ self d. Unit {0} };

    fn opening_size(&self, _bytes: &[u8]) -> usize {
        1
    }

    #[tactic(auto, unfolding(rules::specs::Deeds::told, rules::specs::Deeds::shown))]
    fn begin(&self, bytes: &[u8], _store: &Store, reply: &mut Reply) {
        store::tell(reply, 6, &bytes[..1]);
    }
}

/// Table, start and count, then the revision of the table: its parameter 0.
impl AnyReadable for AnyLocated<'_> {
    ghost opening = { λ self d. held tables (get_or d 0 0) 0 1 ∷ plain (take 3 d) ∷ [] };

    ghost ready = { λ self d. (3 ≤ length d) × (length self.locations.now / 3 ≤ 255) };

    ghost tellable = { λ self d. get_or d 0 0 < logicals gateway tables };

    #[tactic(auto, using(crate::proofs::Opened::table_opening))]
    fn opening_size(&self, _bytes: &[u8]) -> usize {
        7
    }

    #[tactic(auto, using(crate::proofs::Opened::revision_here, crate::proofs::Opened::table_opened, crate::proofs::Opened::table_long))]
    fn begin(&self, bytes: &[u8], store: &Store, reply: &mut Reply) {
        let revision = points::spot_at(TABLES, Logical(bytes[0]), Parameter(0));
        store::tell(reply, 6, &bytes[..3]);
        store::tell(reply, 9, store::value_in(store, revision));
    }
}
