//! 10 and 11: table, start location, count: the parameters that the locations name, whose values 11 carries.

ghost use Rattle.std.specs.Prelude.{◌≡◌, ◌≤◌, ◌<◌, ℕ, List, length, get_or, IfOk};
ghost use Rattle.faults.specs.Faults.{check_of};
ghost use Rattle.points.specs.Types.{gateway, tables, logicals};
ghost use Rattle.rules.specs.Opcodes.{plan10, plan11};
ghost use Rattle.opcodes.specs.Done.{held, said, done, space_by, store_by};
ghost use Rattle.opcodes.specs.Blocks.{table_block, block_check, IsTable};

use crate::held::values_in;
use crate::{Request, walks};
use faults::{Fault, Refusal, require};
use frame::Reply;
use lists::any::{AnyBlock, AnyLocated};
use points::{Count, Logical, Parameter};
use store::Store;

/// The index of the point type of the tables.
const TABLES: usize = 2;

/// How many bytes the locations of a whole table have: 44 of three.
const WHOLE: usize = 132;

/// Sixteen tables with locations 1 to 44 each. A location is a parameter of its table.
#[tactic(auto, unfolding(crate::specs::Blocks::table_block, rules::specs::Opcodes::locates, base::specs::Check::checks, points::specs::Types::logicals, points::specs::Types::gateway, points::specs::Types::point, points::specs::Types::points, points::specs::Rows::rows99))]
fn locate(request: &Request) -> Result<AnyBlock, Fault>
    ensures is { block_check result ≡ table_block request.now.bytes.now }
    ensures table { IfOk result (λ block. IsTable request.now.bytes.now block) }
{
    let bytes = request.bytes;
    require(3 <= bytes.len(), Refusal::Length, bytes.len() as u8)?;
    let (table, start, count) = (bytes[0], bytes[1], bytes[2]);
    require(table < 16, Refusal::OutsideTable, 0)?;
    require((1..=44).contains(&start), Refusal::OutsideTable, 1)?;
    require(count != 0, Refusal::CountZero, 2)?;
    let end = start as usize + count as usize;
    require(end <= 45, Refusal::OutsideTable, 2)?;
    Ok(AnyBlock {
        index: TABLES,
        logical: Logical(table),
        start: Parameter(start),
        count: Count(count),
    })
}

/// Opcode 10: the values of the parameters that the locations name, behind the table's revision. Nothing is stored, so that the locations are
/// read where they stand.
#[tactic(auto, unfolding(base::specs::Check::checks), using(crate::proofs::Plans::plan10_table, crate::proofs::Stretch::threes))]
pub fn read(
    request: &Request,
    store: &Store,
    aloud: bool,
    reply: &mut Reply,
) -> Result<usize, Fault>
    ensures answer { (c : List ℕ) → check_of result ≡ said (plan10 gateway request.now.level (held store.now c) request.now.bytes.now) }
    ensures space { (c : List ℕ) → reply.new ≡ space_by aloud store.now reply.old (plan10 gateway request.now.level (held store.now c) request.now.bytes.now) }
{
    let locations = values_in(store, locate(request)?);
    let entries = AnyLocated { locations };
    walks::read(&entries, request, 3, store, aloud, reply)
}

/// The locations, copied to the front of a space that holds those of a whole table.
fn copy<'a>(locations: &[u8], space: &'a mut [u8; WHOLE]) -> &'a [u8]
    requires room { length locations.now ≤ 132 }
    ensures { result.now ≡ locations.now }
{
    let copied = &mut space[..locations.len()];
    copied.copy_from_slice(locations);
    copied
}

/// Opcode 11: the parameters' values, which the data carry, stored. The locations are those at the request's arrival, since it may write to
/// its own table: they are copied before anything is stored.
#[tactic(auto, unfolding(base::specs::Check::checks), using(crate::proofs::Plans::plan11_table, crate::proofs::Stretch::threes))]
pub fn write(request: &Request, store: &mut Store) -> Result<(), Fault>
    ensures answer { (c : List ℕ) → check_of result ≡ done (plan11 gateway request.now.level (held store.old c) request.now.bytes.now) }
    ensures store { (c : List ℕ) → store.new ≡ store_by store.old (plan11 gateway request.now.level (held store.old c) request.now.bytes.now) }
{
    let mut places = [0; WHOLE];
    let entries = AnyLocated {
        locations: copy(values_in(store, locate(request)?), &mut places),
    };
    walks::write(&entries, request, 3, store)
}
