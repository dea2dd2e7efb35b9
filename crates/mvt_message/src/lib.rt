//! The layers of a tile (Mapbox Vector Tile Specification 2.1, 4.1): a layer of version 2, or
//! another as its bytes, read from a payload and written as one.
#![tactic(auto)]

mod around;
mod canonical_features;
mod canonical_layer;
mod extent;
mod feature_visitor;
mod feature_writing;
mod features;
mod item;
mod item_writing;
pub mod laws;
mod layer_copying;
mod layer_fields;
mod layer_frame;
mod layer_header;
mod layer_rewriting;
mod layer_writer;
mod looking;
mod naming;
pub mod numbers;
mod payload;
mod reading;
mod rewriting;
mod validity;
mod values;
mod version;
mod visiting;

pub use canonical_layer::visit_canonical;
pub use extent::extent_in;
pub use feature_visitor::FeatureVisitor;
pub use item::{Item, Layer};
pub use item_writing::{PutError, item_len, put_item};
pub use layer_rewriting::{LayerRewriter, Rewritten, RewrittenLayer};
pub use layer_writer::LayerWriter;
pub use mvt_base::LIMIT;
pub use mvt_feature::{
    Cause, Feature, FeatureFields, MessageError, Unsure, read_feature, read_value,
};
pub use naming::{has_name, name_in};
pub use reading::{judge_item, read_item};
pub use rewriting::rewrite_item;
pub use validity::{are_of_version, is_valid_item, is_valid_layer, validate_item};
pub use visiting::{LayerVisitor, Visited, visit_layer, visit_version_2};
