//! Laws about the definitions alone: functions without effect, whose contract is the law.
ghost use Rattle.std.specs.Prelude.{◌≡◌, ℕ, List};
ghost use Rattle.mvt_base.specs.declared.TheConstants.{LIMIT};
ghost use Rattle.mvt_feature.specs.Ranges.{AreBytes};
ghost use Rattle.mvt_tile_value.specs.declared.tile.Tile.{Tile};
ghost use Rattle.mvt_tile_value.specs.CanonicalTiles.{canonical};
ghost use Rattle.mvt_tile_value.specs.Tiles.{IsTile};
ghost use Rattle.mvt_tile_value.specs.ValidTiles.{Valid};
ghost use Rattle.mvt_rows.specs.declared.rows_cause.RowsFault.{RowsFault};
ghost use Rattle.mvt_rows.specs.Reading.{IsRead, IsRewritten, IsTooLarge};
ghost use Rattle.mvt_rows.specs.ReadTables.{read_table};
ghost use Rattle.mvt_rows.specs.RowsFaults.{IsFaultOf};
ghost use Rattle.mvt_rows.specs.Tables.{Table};
ghost use Rattle.mvt_rows.specs.TileRows.{IsTileOf};
ghost use Rattle.mvt_rows.specs.Told.{ToldItem};
ghost use Rattle.mvt_rows.specs.ToldRows.{rows_of};
ghost use Rattle.mvt_rows.specs.ToldTile.{IsToldTile};
ghost use Rattle.mvt_rows.specs.Written.{IsNoTile, IsTooLargeOfRows, IsWritten};

/// Rows are one tile at most.
pub fn rows_are_one_tile()
    ensures { (table : Table) (tile other : Tile) → IsTileOf table tile → IsTileOf table other
        → tile ≡ other }
{}

/// The rows that a tile's bytes are read as are that tile.
pub fn read_table_is_tile()
    ensures { (input : List ℕ) (tile : Tile) → AreBytes input → IsTile LIMIT input tile
        → IsTileOf (read_table input tile) tile }
{}

/// Bytes are read as one table.
pub fn read_rows_are_one_table()
    ensures { (input : List ℕ) (table other : Table) → IsRead input table → IsRead input other
        → table ≡ other }
{}

/// Rows that were read can be written, and are written as the canonical bytes of the tile that was
/// read.
pub fn read_rows_are_written()
    ensures written { (input made : List ℕ) (table : Table) → IsRead input table
        → IsWritten table made
        → IsRewritten input made }
    ensures too_large { (input : List ℕ) (table : Table) → IsRead input table
        → IsTooLargeOfRows table
        → IsTooLarge input }
    ensures taken { (input : List ℕ) (table : Table) → IsRead input table → IsNoTile table → ⊥ }
{}

/// What is wrong with rows is one thing.
pub fn rows_have_one_fault()
    ensures { (table : Table) (fault other : RowsFault) → IsFaultOf table fault
        → IsFaultOf table other → fault ≡ other }
{}

/// Rows with which something is wrong are no valid tile.
pub fn rows_with_a_fault_are_no_tile()
    ensures { (table : Table) (fault : RowsFault) → IsFaultOf table fault → IsNoTile table }
{}

/// The rows of what a builder was told are the tile that it was told: that is written, and as its
/// canonical bytes.
pub fn told_rows_are_tile()
    ensures tile { (told : List ToldItem) (tile : Tile) → IsToldTile told tile
        → IsTileOf (rows_of told) tile }
    ensures written { (told : List ToldItem) (tile : Tile) (made : List ℕ) → IsToldTile told tile
        → IsWritten (rows_of told) made
        → made ≡ canonical tile }
    ensures taken { (told : List ToldItem) (tile : Tile) → IsToldTile told tile → Valid tile
        → IsNoTile (rows_of told)
        → ⊥ }
{}
