// Block sizes, and how many blocks a store has.
ghost use Rattle.std.specs.Prelude.{◌≡◌, ◌++◌, ◌<◌, ◌≤◌, ◌+◌, ◌==◌, ◌/◌, ◌&&◌, ◌||◌, [], nat_lt, All, IfOk, IsTrue, OnOk, Some, length};
ghost use Rattle.std.specs.List.{list_all, list_any};
ghost use Rattle.parm_records.specs.Ranges.{IsBlockSize, IsSd};
ghost use Rattle.plan_types.specs.Valid.{IsStore, blocks_of};
ghost use Rattle.run_plan.specs.Stores.{text_or_empty};
ghost use Rattle.vd_base.specs.Geometry.{IsGeometry};
ghost use Rattle.vd_base.specs.Name.{is_padded_name, padded};
ghost use Rattle.run_plan.specs.Drafts.{IsDraft};
ghost use Rattle.run_plan.specs.Outcomes.{Gives, GivesOne, in_turn};
ghost use Rattle.run_plan.specs.Sizes.{block_size_of, blocks_in, is_whole, joined, size_kind, sizes_in, smallest, store_at, store_of, transfers_of};

use crate::fault::{PlanKind, PlanRefused, stop};
use crate::runs::Draft;
use crate::texts::{copied, joined};
use parm_records::SdDef;
use plan_types::{Share, StorePlan};
use std::alloc::{AllocError, Global};
use vd_base::{Geometry, StoreId, StoreName};
use vd_list::Items;
use vd_outside::Text;

/// Adds the transfer sizes of a store in a run.
fn push_sizes(store: u32, shares: &[Share], sizes: &mut Vec<u32>) -> Result<(), AllocError>
    ensures { OnOk result (sizes.new.items ≡ sizes.old.items ++ sizes_in store shares.now) }
{
    for share in shares {
        if share.store == store {
            sizes.push(share.xfersize)?;
        }
    }
    Ok(())
}

/// The transfer sizes of a store over all runs.
fn transfers_of(alloc: Global, store: u32, drafts: &[Draft]) -> Result<Vec<u32>, AllocError>
    ensures { IfOk result (λ sizes. sizes.items ≡ transfers_of store drafts.now) }
{
    let mut sizes = Vec::new(alloc);
    for draft in drafts {
        push_sizes(store, draft.run.shares.as_slice(), &mut sizes)?;
    }
    Ok(sizes)
}

/// The smallest transfer size, or 4,096 where there is none.
fn smallest(sizes: &[u32]) -> u32
    ensures { result ≡ smallest sizes.now }
{
    let Some((first, others)) = sizes.split_first() else {
        return 4096;
    };
    let mut least = *first;
    for size in others {
        least = least.min(*size);
    }
    least
}

/// A store's block size: its keyblock where that is given, else the smallest transfer.
fn block_size_of(d: &SdDef, transfers: &[u32]) -> u32
    requires ranges { IsSd d.now }
    requires transfers { All IsBlockSize transfers.now }
    ensures value { result ≡ block_size_of d.now transfers.now }
    ensures range { IsBlockSize result }
{
    match d.keyblock {
        Some(size) => size as u32,
        None => smallest(transfers),
    }
}

fn is_whole(block_size: u32, transfer: u32) -> bool
    requires { 0 < block_size }
    ensures { result ≡ is_whole block_size transfer }
{
    transfer % block_size == 0 && transfer / block_size <= 64
}

/// Whether each transfer is whole blocks, at most 64 of them.
fn all_whole(block_size: u32, transfers: &[u32]) -> bool
    requires { 0 < block_size }
    ensures { result ≡ list_all (is_whole block_size) transfers.now }
{
    transfers
        .iter()
        .all(|transfer| is_whole(block_size, *transfer))
}

/// Whether some transfer has more blocks than there are.
fn any_above(blocks: u64, block_size: u32, transfers: &[u32]) -> bool
    requires { 0 < block_size }
    ensures { result ≡ list_any (λ transfer. nat_lt blocks (transfer / block_size)) transfers.now }
{
    transfers
        .iter()
        .any(|transfer| blocks < (*transfer / block_size) as u64)
}

/// What is wrong with a store's size, behind stores of so many blocks.
fn size_kind(before: u64, blocks: u64, block_size: u32, transfers: &[u32]) -> Option<PlanKind>
    requires size { 0 < block_size }
    requires before { before ≤ 16777216 }
    ensures { result ≡ size_kind before blocks block_size transfers.now }
{
    if !all_whole(block_size, transfers) {
        return Some(PlanKind::TransferNotMultiple);
    }
    if blocks == 0 || any_above(blocks, block_size, transfers) {
        return Some(PlanKind::SizeSmall);
    }
    if blocks > 16_777_216 - before {
        return Some(PlanKind::BlocksMany);
    }
    None
}

fn id_of(d: &SdDef, blocks: u32, block_size: u32) -> StoreId
    requires ranges { IsSd d.now }
    requires geometry { IsGeometry blocks block_size }
    ensures value { result ≡ record { name = padded d.now.name; geometry = record { blocks = blocks; block_size = block_size } } }
    ensures name { IsTrue (is_padded_name result.name) }
{
    let (Some(name), Some(geometry)) = (
        StoreName::read(d.name.as_bytes()),
        Geometry::new(blocks, block_size),
    ) else {
        unreachable!()
    };
    StoreId { name, geometry }
}

fn path_of(alloc: Global, d: &SdDef) -> Result<Text, AllocError>
    ensures { IfOk result (λ path. path ≡ text_or_empty d.now.lun) }
{
    match &d.lun {
        Some(path) => copied(alloc, path),
        None => Ok(Text::of(String::new(alloc))),
    }
}

fn store_of(alloc: Global, d: &SdDef, blocks: u32, block_size: u32) -> Result<StorePlan, AllocError>
    requires ranges { IsSd d.now }
    requires geometry { IsGeometry blocks block_size }
    ensures value { IfOk result (λ store. store ≡ store_of d.now blocks block_size) }
    ensures valid { IfOk result IsStore }
{
    Ok(StorePlan {
        id: id_of(d, blocks, block_size),
        path: path_of(alloc, d)?,
        journal: copied(alloc, &d.journal)?,
        threads: d.threads as u32,
        openflags: joined(alloc, d.openflags.as_slice())?,
    })
}

/// How many whole blocks a definition's size has.
fn blocks_in(d: &SdDef, block_size: u32) -> u64
    requires { 0 < block_size }
    ensures { result ≡ blocks_in d.now block_size }
{
    match d.size {
        Some(size) => size / block_size as u64,
        None => 0,
    }
}

/// A store behind those before it, or why it is refused.
fn store_at(
    alloc: Global,
    drafts: &[Draft],
    before: &[StorePlan],
    blocks_before: u64,
    d: &SdDef,
) -> Result<StorePlan, PlanRefused>
    requires ranges { IsSd d.now }
    requires drafts { All IsDraft drafts.now }
    requires few { length before.now ≤ 64 }
    requires blocks { blocks_before ≡ blocks_of before.now }
    requires few_blocks { blocks_before ≤ 16777216 }
    ensures given { GivesOne result (store_at drafts.now before.now d.now) }
    ensures valid { IfOk result IsStore }
    ensures few_now { IfOk result (λ store. blocks_before + store.id.geometry.blocks ≤ 16777216) }
{
    let transfers = transfers_of(alloc, before.len() as u32, drafts)?;
    let block_size = block_size_of(d, transfers.as_slice());
    let blocks = blocks_in(d, block_size);
    stop(
        d.line,
        size_kind(blocks_before, blocks, block_size, transfers.as_slice()),
    )?;
    Ok(store_of(alloc, d, blocks as u32, block_size)?)
}

/// The stores with their sizes, or the first that is refused.
pub(crate) fn stores_of(
    alloc: Global,
    drafts: &[Draft],
    sds: &[SdDef],
) -> Result<Items<StorePlan>, PlanRefused>
    requires ranges { All IsSd sds.now }
    requires few { length sds.now ≤ 64 }
    requires drafts { All IsDraft drafts.now }
    ensures gives { Gives result (in_turn (store_at drafts.now) [] sds.now) }
    ensures many { IfOk result (λ stores. length stores ≡ length sds.now) }
    ensures valid { IfOk result (λ stores. All IsStore stores) }
    ensures few_blocks { IfOk result (λ stores. blocks_of stores ≤ 16777216) }
{
    let mut blocks = 0;
    let mut stores = Vec::new(alloc);
    for d in sds {
        let store = store_at(alloc, drafts, stores.as_slice(), blocks, d)?;
        blocks += store.id.geometry.blocks() as u64;
        stores.push(store)?;
    }
    Ok(Items::of(stores))
}
