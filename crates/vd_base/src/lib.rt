//! Numbers and names that every layer shares: sectors, block numbers, keys, store names and geometries.
//!
//! It promises that a value of one of these types is always within its limits, so that no layer above tests it again.
//! It stands on std alone.
#![tactic(auto)]

mod geometry;
mod key;
mod name;

pub use geometry::{BlockNo, Geometry, StoreId};
pub use key::{Key, next_key};
pub use name::StoreName;

/// The unit of a disk: 512 bytes.
pub type Sector = [u8; 512];
