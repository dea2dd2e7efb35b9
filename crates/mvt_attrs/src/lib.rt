//! The attributes of a feature (Mapbox Vector Tile Specification 2.1, 4.4): values, the pools of
//! keys and values that a layer holds, and the tags that name entries of these pools.
#![tactic(auto)]

mod apart;
mod distinct;
mod entry;
mod entry_index;
mod judging;
mod key_pool;
pub mod laws;
mod layer_keys;
mod lookup;
mod packed_tags;
mod placing;
mod pool;
mod pool_error;
mod resolving;
mod text_ref;
mod texts;
mod two_choices;
mod use_order;
mod used_entries;
mod value;
mod value_pool;

pub use distinct::are_distinct;
pub use entry::Entry;
pub use judging::judge_tags;
pub use key_pool::KeyPool;
pub use layer_keys::LayerKeys;
pub use packed_tags::{NoTags, PackedTags, TagVisitor, judge_packed};
pub use placing::tags_of;
pub use pool::Pool;
pub use pool_error::PoolError;
pub use resolving::{TagCause, TagError, resolve, resolve_in};
pub use text_ref::{TextRef, refs_of};
pub use texts::lend_texts;
pub use use_order::UseOrder;
pub use used_entries::{LayerEntries, UsedEntries};
pub use value::{Attribute, Value, ValueOf, ValueRef};
pub use value_pool::ValuePool;
