// A table over a store that was never written.
ghost use Rattle.std.specs.Prelude.{◌≡◌, ◌≤◌, IfSome, All, length, map};
ghost use Rattle.claim_table.specs.Passes.{ArePasses};
ghost use Rattle.claim_table.specs.Views.{blocks_of};
ghost use Rattle.claim_table.specs.Seats.{IsNew, made_in};

use claim_table::{ClaimSeat, ClaimTable};
use key_state::{Book, QuietBook};
use std::alloc::Global;
use vd_arm::{FilePass, Pass};
use vd_base::{BlockNo, Geometry, StoreId, StoreName};

/// What a table is made of.
#[derive(Drop)]
pub(crate) struct Material {
    pub(crate) store: StoreId,
    pub(crate) passes: Vec<FilePass>,
    pub(crate) book: QuietBook,
}

fn passes_of(alloc: Global, store: &StoreId) -> Option<Vec<FilePass>>
    ensures { IfSome result (λ passes. ArePasses store.now (map ⟦<FilePass as Pass>⟧.seen passes.items)) }
{
    let size = store.geometry.block_size();
    let mut passes = Vec::with_capacity(alloc, store.geometry.blocks() as usize).ok()?;
    for block in 0..store.geometry.blocks() {
        passes.push_reserved(FilePass::new(BlockNo(block), size));
    }
    Some(passes)
}

/// The passes and the book of a store of so many blocks.
pub(crate) fn material_of(alloc: Global, blocks: u32) -> Option<Material>
    ensures store { IfSome result (λ m. m.store.geometry.blocks ≡ blocks) }
    ensures passes { IfSome result (λ m. ArePasses m.store (map ⟦<FilePass as Pass>⟧.seen m.passes.items)) }
    ensures book { IfSome result (λ m. length (⟦<QuietBook as Book>⟧.seen m.book).now ≡ blocks) }
{
    let store = StoreId {
        name: StoreName::read(b"sd1")?,
        geometry: Geometry::new(blocks, 512)?,
    };
    let passes = passes_of(alloc, &store)?;
    let book = QuietBook::new(alloc, blocks).ok()?;
    Some(Material {
        store,
        passes,
        book,
    })
}

/// A table of so many blocks, and its seats.
pub(crate) fn table_of(
    alloc: Global,
    blocks: u32,
    seats: u32,
) -> Option<(ClaimTable<FilePass, QuietBook>, Vec<ClaimSeat>)>
    requires { (1 ≤ seats) × (seats ≤ 65536) }
    ensures blocks { IfSome result (λ made. blocks_of (made_in ⟦<FilePass as Pass>⟧.seen ⟦<QuietBook as Book>⟧.seen made.0) ≡ blocks) }
    ensures seats { IfSome result (λ made. All (IsNew ⟦<FilePass as Pass>⟧.seen ⟦<QuietBook as Book>⟧.seen made.0) made.1.items) }
{
    let Material {
        store,
        passes,
        book,
    } = material_of(alloc, blocks)?;
    match ClaimTable::new(alloc, &store, passes, book, seats) {
        Ok(made) => Some(made),
        Err(_) => None,
    }
}
