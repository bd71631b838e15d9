//! 167 and 166: type, logical, count, start: a block of parameters of one logical, whose values 166 carries.

ghost use Rattle.std.specs.Prelude.{◌≡◌, ◌≤◌, ℕ, List, length, IfOk};
ghost use Rattle.faults.specs.Faults.{check_of};
ghost use Rattle.points.specs.Types.{gateway};
ghost use Rattle.rules.specs.Opcodes.{plan166, plan167};
ghost use Rattle.lists.specs.Walks.{Run};
ghost use Rattle.opcodes.specs.Done.{held, said, done, space_by, store_by};
ghost use Rattle.opcodes.specs.Blocks.{spanned, block_check};

use crate::held::values_in;
use crate::{Request, walks};
use faults::{Fault, Refusal, require};
use frame::Reply;
use lists::any::AnyBlock;
use points::{Count, Logical, Parameter, PointType};
use store::Store;

/// The block that the data name. The third byte is the count and the fourth the start.
#[tactic(auto, unfolding(crate::specs::Blocks::spanned, rules::specs::Opcodes::spans, points::specs::There::there, base::specs::Check::checks), using(points::proofs::Cases::no_type, points::proofs::Cases::of_type, crate::proofs::Spans::some_height, crate::proofs::Spans::last_end))]
fn span(request: &Request) -> Result<AnyBlock, Fault>
    ensures is { block_check result ≡ spanned request.now.bytes.now }
    ensures some { IfOk result (λ block. 1 ≤ block.count.0) }
    ensures run { IfOk result (λ block. Run block.index block.logical.0 block.start.0 block.count.0) }
    ensures four { IfOk result (λ block. 4 ≤ length request.now.bytes.now) }
{
    let bytes = request.bytes;
    require(4 <= bytes.len(), Refusal::Length, bytes.len() as u8)?;
    let index = points::index_of(PointType(bytes[0])).ok_or(Fault {
        refusal: Refusal::NoPointType,
        place: 0,
    })?;
    let logicals = points::logicals_of(index);
    require(bytes[1] < logicals, Refusal::NoLogical, 1)?;
    require(bytes[2] != 0, Refusal::CountZero, 2)?;
    let end = bytes[3] as usize + bytes[2] as usize;
    let height = points::height_of(index) as usize;
    require(end <= height, Refusal::NoParameter, 3)?;
    Ok(AnyBlock {
        index,
        logical: Logical(bytes[1]),
        start: Parameter(bytes[3]),
        count: Count(bytes[2]),
    })
}

/// Opcode 167: the four bytes that name the block, and what it holds, copied as one stretch and not one parameter at a time.
#[tactic(auto, unfolding(base::specs::Check::checks), using(crate::proofs::Plans::plan167_block, crate::proofs::Plans::block_sizes, crate::proofs::Plans::block_fitting, crate::proofs::Plans::block_told, crate::proofs::Told::two_told, crate::proofs::Plans::row_levels))]
pub fn read(
    request: &Request,
    store: &Store,
    aloud: bool,
    reply: &mut Reply,
) -> Result<usize, Fault>
    ensures answer { (c : List ℕ) → check_of result ≡ said (plan167 gateway request.now.level (held store.now c) request.now.bytes.now) }
    ensures space { (c : List ℕ) → reply.new ≡ space_by aloud store.now reply.old (plan167 gateway request.now.level (held store.now c) request.now.bytes.now) }
{
    let block = span(request)?;
    let spot = points::spot_at(block.index, block.logical, block.start);
    require(
        points::read_level_at(spot.row) <= request.level,
        Refusal::LevelTooLow,
        0,
    )?;
    require(request.bytes.len() <= 4, Refusal::Length, 4)?;
    let values = values_in(store, block);
    let size = 4 + values.len();
    require(size <= 255, Refusal::ReplyTooLong, 0)?;
    if aloud {
        store::tell(reply, 6, request.bytes);
        store::tell(reply, 10, values);
    }
    Ok(size)
}

/// Opcode 166: the values of the block, which the data carry behind the four bytes that name it, stored.
#[tactic(auto, unfolding(base::specs::Check::checks), using(crate::proofs::Plans::plan166_block, crate::proofs::Plans::row_levels))]
pub fn write(request: &Request, store: &mut Store) -> Result<(), Fault>
    ensures answer { (c : List ℕ) → check_of result ≡ done (plan166 gateway request.now.level (held store.old c) request.now.bytes.now) }
    ensures store { (c : List ℕ) → store.new ≡ store_by store.old (plan166 gateway request.now.level (held store.old c) request.now.bytes.now) }
{
    let block = span(request)?;
    let spot = points::spot_at(block.index, block.logical, block.start);
    require(
        points::write_level_at(spot.row) <= request.level,
        Refusal::LevelTooLow,
        0,
    )?;
    walks::write(&block, request, 4, store)
}
