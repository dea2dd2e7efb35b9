//! A tile as flat rows, and the bytes of the tile that rows are: each row refers to its parts by
//! their place in the list of their kind. So code in any language can read a tile without calls.
#![tactic(auto)]

mod builder;
pub mod laws;
mod places;
mod rows;
mod rows_cause;
mod rows_error;
mod table;
mod undrawn;
mod words;
mod work;
mod writing;

pub use builder::{BuildError, Builder, FinishError};
pub use rows::{FeatureRow, LayerRow, PartRow, PointRow, Rows, Span, ValueRow};
pub use rows_cause::{RowsCause, RowsFault};
pub use rows_error::RowsError;
pub use table::{RowsDecoder, RowsVisitor, Table, read_layer, read_rows, read_rows_within};
pub use undrawn::{DrawingRule, Undrawn};
pub use words::AnyValue;
pub use writing::{rows_fault, write_rows};
