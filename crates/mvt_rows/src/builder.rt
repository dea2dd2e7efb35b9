//! A tile made step by step: a builder holds the rows of what it was told, and gives the tile's
//! bytes at the end.
ghost use Rattle.std.specs.Prelude.{◌≡◌, ◌≢◌, ◌&&◌, ◌++◌, [], List, None, Some, Ok, Err, MatchOption, is_some, OnOk, OnErr, IfOk, IfErr, IfSome, IsSomeAnd, IsErrOf, bytes_eq, false, true};
ghost use Rattle.mvt_attrs.specs.FirstUse.{AreDistinct};
ghost use Rattle.mvt_attrs.specs.Placed.{IsPlaced};
ghost use Rattle.mvt_attrs.specs.TagPlaces.{place_in};
ghost use Rattle.mvt_rows.specs.declared.builder.BuildError.TheVariants.{Memory};
ghost use Rattle.mvt_rows.specs.declared.builder.FinishError.TheVariants.{Call};
ghost use Rattle.mvt_rows.specs.Building.{HasTold, NotFinished, Holds, IsCalled, IsRefused, IsStep, IsWithKeys, IsWithValues, has_layer, has_feature, has_kind, takes_points};
ghost use Rattle.mvt_rows.specs.Tables.{Table};
ghost use Rattle.mvt_rows.specs.ToldRows.{rows_of, told_rows};
ghost use Rattle.mvt_rows.specs.Written.{IsWritten};
ghost use Rattle.mvt_rows.specs.Told.{given_of, same_given, with_entry};
ghost use Rattle.mvt_rows.specs.Told as spec;

use crate::places::Places;
use crate::rows::{PartRow, PointRow};
use crate::rows_error::RowsError;
use crate::table::Table;
use crate::words::{AnyValue, Given, Word};
use crate::writing::{find_part, write_rows};
use mvt_attrs::{Entry, Pool};
use std::alloc::{AllocError, Global};

/// Why a builder's call does nothing.
#[derive(Clone, Copy, Debug, Drop, PartialEq, Eq)]
pub enum BuildError {
    /// A growth was refused memory.
    Memory,
    /// The call isn't due: no layer, or no feature of the right kind, has begun.
    OutOfTurn,
}

/// Why a builder gives no bytes.
#[derive(Clone, Copy, Debug, Drop, PartialEq, Eq)]
pub enum FinishError {
    /// A call before has failed.
    Call(BuildError),
    /// The rows are no valid tile, or its bytes are too many, or memory ran out.
    Rows(RowsError),
}

impl From<AllocError> for FinishError {
    ghost use Rattle.std.specs.Prelude.{◌≡◌};
    ghost use Rattle.mvt_rows.specs.declared.builder.FinishError.TheVariants.{Rows};
    ghost use Rattle.mvt_rows.specs.declared.rows_error.RowsError.TheVariants.{Memory};

    ghost from_gives = { λ _ error. error ≡ Rows Memory };

    fn from(_: AllocError) -> Self {
        FinishError::Rows(RowsError::Memory)
    }
}

impl From<RowsError> for FinishError {
    ghost use Rattle.std.specs.Prelude.{◌≡◌};
    ghost use Rattle.mvt_rows.specs.declared.builder.FinishError.TheVariants.{Rows};

    ghost from_gives = { λ refused error. error ≡ Rows refused };

    fn from(refused: RowsError) -> Self {
        FinishError::Rows(refused)
    }
}

/// What has begun last and not ended.
#[derive(Clone, Copy, Debug, PartialEq, Eq)]
pub(crate) enum Turn {
    Nothing,
    Layer,
    Feature,
    Part,
}

/// The feature that has begun, and where what belongs to it begins in the lists.
#[derive(Clone, Copy, Debug)]
pub(crate) struct OpenFeature {
    pub(crate) kind: u32,
    pub(crate) id: Option<u64>,
    pub(crate) tags_at: usize,
    pub(crate) parts_at: usize,
    pub(crate) points_at: usize,
    pub(crate) integers_at: usize,
}

/// Makes a tile step by step. After a call that fails, each further one fails the same way.
#[derive(Drop)]
pub struct Builder {
    table: Table,
    failure: Option<BuildError>,
    turn: Turn,
    /// Of the layer that has begun: its name, its extent, where its rows begin, its keys and its
    /// values.
    name: Word,
    extent: u32,
    layer_at: Places,
    keys: Pool<Word>,
    values: Pool<Given>,
    feature: OpenFeature,
    /// Of the part that has begun: whether it is an exterior ring, and where its points begin.
    exterior: bool,
    part_at: usize,
    /// The key and the value that are looked for, in memory that is kept.
    key: Word,
    value: Given,
}

impl Builder {
    /// A builder of a tile without layers.
    pub fn new(alloc: Global) -> Self
        ensures { HasTold result spec.nothing_told }
    {
        let table = Table::new(alloc);
        let layer_at = table.places();
        let feature = table.open_feature(0);
        Builder {
            table,
            failure: None,
            turn: Turn::Nothing,
            name: Word::new(alloc),
            extent: 0,
            layer_at,
            keys: Pool::new(alloc),
            values: Pool::new(alloc),
            feature,
            exterior: false,
            part_at: 0,
            key: Word::new(alloc),
            value: Given::new(alloc),
        }
    }

    /// Begins a layer of version 2, and ends the one before.
    ///
    /// # Errors
    ///
    /// `Memory`. Behind an error each call gives that error.
    pub fn layer(&mut self, alloc: Global, name: &[u8], extent: u32) -> Result<(), BuildError>
        ensures { IsCalled self.old self.new result (spec.begin_layer name.now extent) }
    {
        self.enter(true)?;
        let begun = self.begin_layer(alloc, name, extent);
        self.settle(begun)
    }

    /// Adds a layer of another version, given by its bytes.
    ///
    /// # Errors
    ///
    /// `OutOfTurn` for version 2; `Memory`. Behind an error each call gives that error.
    pub fn foreign(&mut self, version: u32, bytes: &[u8]) -> Result<(), BuildError>
        ensures { IsCalled self.old self.new result (spec.add_foreign version bytes.now) }
    {
        self.enter(version != 2)?;
        let added = self.end_and_add(version, bytes);
        self.settle(added)
    }

    /// The index of a key of the layer, which is added if it is new.
    ///
    /// # Errors
    ///
    /// `OutOfTurn` where no layer has begun; `Memory`. Behind an error each call gives that error.
    pub fn key(&mut self, key: &[u8]) -> Result<u32, BuildError>
        ensures called { IsCalled self.old self.new result (spec.add_key key.now) }
        ensures index { (told : spec.Told) → HasTold self.old told → IfOk result (λ index.
            IfSome (spec.layer_in told.begun) (λ l. index ≡ place_in bytes_eq l.keys key.now)) }
    {
        self.enter(self.is_in_layer())?;
        let index = self.key_index(key);
        self.settle(index)
    }

    /// The index of a value of the layer, which is added if it is new.
    ///
    /// # Errors
    ///
    /// `OutOfTurn` where no layer has begun; `Memory`. Behind an error each call gives that error.
    pub fn value(&mut self, value: &AnyValue<'_>) -> Result<u32, BuildError>
        ensures called { IsCalled self.old self.new result (spec.add_value (given_of value.now)) }
        ensures index { (told : spec.Told) → HasTold self.old told → IfOk result (λ index.
            IfSome (spec.layer_in told.begun)
            (λ l. index ≡ place_in same_given l.values (given_of value.now))) }
    {
        self.enter(self.is_in_layer())?;
        let index = self.value_index(value);
        self.settle(index)
    }

    /// Begins a feature of the layer, and ends the one before.
    ///
    /// # Errors
    ///
    /// `OutOfTurn` where no layer has begun; `Memory`. Behind an error each call gives that error.
    pub fn feature(&mut self, kind: u32) -> Result<(), BuildError>
        ensures { IsCalled self.old self.new result (spec.begin_feature kind) }
    {
        self.enter(self.is_in_layer())?;
        let begun = self.begin_feature(kind);
        self.settle(begun)
    }

    /// Gives the feature its id.
    ///
    /// # Errors
    ///
    /// `OutOfTurn` where no feature has begun; `Memory`. Behind an error each call gives that
    /// error.
    pub fn id(&mut self, id: u64) -> Result<(), BuildError>
        ensures { IsCalled self.old self.new result (spec.add_id id) }
    {
        self.enter(self.is_in_feature())?;
        self.feature.id = Some(id);
        Ok(())
    }

    /// Adds an attribute to the feature by the indices of its key and its value.
    ///
    /// # Errors
    ///
    /// `OutOfTurn` where no feature has begun; `Memory`. Behind an error each call gives that
    /// error.
    pub fn tag_at(&mut self, key: u32, value: u32) -> Result<(), BuildError>
        ensures { IsCalled self.old self.new result (spec.add_tag_at key value) }
    {
        self.enter(self.is_in_feature())?;
        let added = self.table.add_tags(&[key, value]);
        self.settle(added)
    }

    /// Adds an attribute to the feature.
    ///
    /// # Errors
    ///
    /// `OutOfTurn` where no feature has begun; `Memory`. Behind an error each call gives that
    /// error.
    pub fn tag(&mut self, key: &[u8], value: &AnyValue<'_>) -> Result<(), BuildError>
        ensures { IsCalled self.old self.new result (spec.add_tag key.now (given_of value.now)) }
    {
        self.enter(self.is_in_feature())?;
        let added = self.add_tag(key, value);
        self.settle(added)
    }

    /// Begins a line of a feature of lines.
    ///
    /// # Errors
    ///
    /// `OutOfTurn` where no feature of lines has begun; `Memory`. Behind an error each call gives
    /// that error.
    pub fn line(&mut self) -> Result<(), BuildError>
        ensures { IsCalled self.old self.new result (spec.begin_part 2 false) }
    {
        self.part(2, false)
    }

    /// Begins a ring of a feature of polygons. An exterior ring begins a polygon.
    ///
    /// # Errors
    ///
    /// `OutOfTurn` where no feature of polygons has begun; `Memory`. Behind an error each call
    /// gives that error.
    pub fn ring(&mut self, exterior: bool) -> Result<(), BuildError>
        ensures { IsCalled self.old self.new result (spec.begin_part 3 exterior) }
    {
        self.part(3, exterior)
    }

    fn part(&mut self, kind: u32, exterior: bool) -> Result<(), BuildError>
        ensures { IsCalled self.old self.new result (spec.begin_part kind exterior) }
    {
        self.enter(self.is_in_kind(kind))?;
        let begun = self.begin_part(exterior);
        self.settle(begun)
    }

    /// Adds points to the line or the ring that began last, or to a feature of points.
    ///
    /// # Errors
    ///
    /// `OutOfTurn` where no part, and no feature of points, has begun; `Memory`. Behind an error
    /// each call gives that error.
    pub fn points(&mut self, points: &[PointRow]) -> Result<(), BuildError>
        ensures { IsCalled self.old self.new result (spec.add_points points.now) }
    {
        self.enter(self.takes_points())?;
        self.begin_points();
        let added = self.table.add_points(points);
        self.settle(added)
    }

    /// Adds integers to a feature of unknown geometry.
    ///
    /// # Errors
    ///
    /// `OutOfTurn` where no feature of unknown geometry has begun; `Memory`. Behind an error each
    /// call gives that error.
    pub fn integers(&mut self, integers: &[u32]) -> Result<(), BuildError>
        ensures { IsCalled self.old self.new result (spec.add_integers integers.now) }
    {
        self.enter(self.is_in_kind(0))?;
        let added = self.table.add_integers(integers);
        self.settle(added)
    }

    /// Adds a whole feature, and ends the one before. Its tags are indices of keys and values; its
    /// parts are spans of these points. It isn't due if a part reaches beyond the points.
    ///
    /// # Errors
    ///
    /// `OutOfTurn` where no layer has begun or a part reaches beyond the points; `Memory`. Behind
    /// an error each call gives that error.
    pub fn add(
        &mut self,
        kind: u32,
        id: Option<u64>,
        tags: &[u32],
        parts: &[PartRow],
        points: &[PointRow],
    ) -> Result<(), BuildError>
        ensures { IsCalled self.old self.new result
            (spec.add_feature kind id tags.now (spec.told_parts kind points.now parts.now)) }
    {
        self.enter(self.takes_parts(kind, parts, points))?;
        let added = self.add_feature(kind, id, tags, parts, points);
        self.settle(added)
    }

    /// Removes the feature that began last and hasn't ended.
    ///
    /// # Errors
    ///
    /// `OutOfTurn` where no feature has begun; `Memory`. Behind an error each call gives that
    /// error.
    pub fn drop_feature(&mut self) -> Result<(), BuildError>
        ensures { IsCalled self.old self.new result spec.drop_feature }
    {
        self.enter(self.is_in_feature())?;
        self.table.forget_feature(self.feature);
        self.turn = Turn::Layer;
        Ok(())
    }

    /// Ends the layer, and copies the rows of the tile so far.
    ///
    /// # Errors
    ///
    /// `Memory`. Behind an error each call gives that error.
    pub fn rows(&mut self, alloc: Global) -> Result<Table, BuildError>
        ensures called { IsCalled self.old self.new result (λ told. Some (spec.ended told)) }
        ensures rows { (told : spec.Told) → HasTold self.old told
            → IfOk result (λ table. table ≡ told_rows told) }
    {
        self.enter(true)?;
        let copied = self.end_and_copy(alloc);
        self.settle(copied)
    }

    /// The canonical bytes of the tile.
    ///
    /// # Errors
    ///
    /// The failure of a call before; out of memory; rows that are no valid tile, and why; a result
    /// beyond the limit.
    pub fn finish(self, alloc: Global) -> Result<Vec<u8>, FinishError>
        ensures done { IfOk result (λ made. (told : spec.Told) → HasTold self told
            → IsWritten (told_rows told) made.items) }
        ensures refused { IfErr result (λ error. (told : spec.Told) → HasTold self told
            → NotFinished (told_rows told) error) }
        ensures sticky { IfSome self.failure (λ failure. IsErrOf result (Call failure)) }
    {
        let mut builder = self;
        if let Some(failure) = builder.failure {
            return Err(FinishError::Call(failure));
        }
        builder.end_layer()?;
        Ok(write_rows(alloc, &builder.table.lent())?)
    }

    /// Whether the call is due, where none has failed before.
    fn enter(&mut self, is_due: bool) -> Result<(), BuildError>
        ensures ok { OnOk result ((self.old.failure ≡ None) × (self.new ≡ self.old)
            × (is_due ≡ true)) }
        ensures err { IfErr result (IsRefused self.old self.new is_due) }
    {
        if let Some(failure) = self.failure {
            return Err(failure);
        }
        if !is_due {
            self.failure = Some(BuildError::OutOfTurn);
            return Err(BuildError::OutOfTurn);
        }
        Ok(())
    }

    /// What a call answers that wants memory.
    fn settle<T: Drop>(&mut self, made: Result<T, AllocError>) -> Result<T, BuildError>
        ensures ok { IfOk made (λ x. (result ≡ Ok x) × (self.new ≡ self.old)) }
        ensures err { OnErr made ((result ≡ Err Memory) × (self.new.failure ≡ Some Memory)) }
    {
        match made {
            Ok(x) => Ok(x),
            Err(_) => {
                self.failure = Some(BuildError::Memory);
                Err(BuildError::Memory)
            }
        }
    }

    fn is_in_layer(&self) -> bool
        ensures { result ≡ has_layer self.now.turn }
    {
        match self.turn {
            Turn::Nothing => false,
            Turn::Layer | Turn::Feature | Turn::Part => true,
        }
    }

    fn is_in_feature(&self) -> bool
        ensures { result ≡ has_feature self.now.turn }
    {
        match self.turn {
            Turn::Nothing | Turn::Layer => false,
            Turn::Feature | Turn::Part => true,
        }
    }

    fn is_in_kind(&self, kind: u32) -> bool
        ensures { result ≡ has_kind self.now.turn self.now.feature.kind kind }
    {
        self.is_in_feature() && self.feature.kind == kind
    }

    fn takes_points(&self) -> bool
        ensures { result ≡ takes_points self.now.turn self.now.feature.kind }
    {
        match self.turn {
            Turn::Nothing | Turn::Layer => false,
            Turn::Feature => self.feature.kind == 1,
            Turn::Part => true,
        }
    }

    /// Whether a whole feature with these parts may come.
    fn takes_parts(&self, kind: u32, parts: &[PartRow], points: &[PointRow]) -> bool
        ensures { result ≡ (has_layer self.now.turn
            && is_some (spec.told_parts kind points.now parts.now)) }
    {
        self.is_in_layer() && are_told(kind, parts, points)
    }

    /// Ends the part that has begun, if there is one.
    fn end_part(&mut self) -> Result<(), AllocError>
        ensures holds { (t : Table) (begun : spec.Begun) → Holds self.old t begun
            → OnOk result (Holds self.new t (spec.part_ended begun)) }
        ensures failure { self.new.failure ≡ self.old.failure }
    {
        if let Turn::Part = self.turn {
            self.table.add_part_row(self.exterior, self.part_at)?;
            self.turn = Turn::Feature;
        }
        Ok(())
    }

    /// Ends the feature that has begun, if there is one.
    fn end_feature(&mut self) -> Result<(), AllocError>
        ensures holds { (t : Table) (begun : spec.Begun) → Holds self.old t begun
            → OnOk result (Holds self.new t (spec.feature_ended begun)) }
        ensures failure { self.new.failure ≡ self.old.failure }
    {
        self.end_part()?;
        if let Turn::Feature = self.turn {
            self.table.add_open_feature(self.feature)?;
            self.turn = Turn::Layer;
        }
        Ok(())
    }

    /// Ends the layer that has begun, if there is one.
    fn end_layer(&mut self) -> Result<(), AllocError>
        ensures holds { (items : List spec.ToldItem) (begun : spec.Begun)
            → Holds self.old (rows_of items) begun → OnOk result
            (Holds self.new (rows_of (items ++ spec.layer_ended begun)) spec.Nothing) }
        ensures failure { self.new.failure ≡ self.old.failure }
    {
        self.end_feature()?;
        if let Turn::Layer = self.turn {
            self.table.add_given(self.values.entries())?;
            self.table.add_words(self.keys.entries())?;
            self.table
                .add_named_row(self.name.as_bytes(), self.extent, self.layer_at)?;
            self.turn = Turn::Nothing;
        }
        Ok(())
    }

    fn begin_layer(&mut self, alloc: Global, name: &[u8], extent: u32) -> Result<(), AllocError>
        ensures { IsStep self.old self.new result (spec.begin_layer name.now extent) }
    {
        self.end_layer()?;
        self.name.set(name)?;
        self.extent = extent;
        self.layer_at = self.table.places();
        self.keys = Pool::new(alloc);
        self.values = Pool::new(alloc);
        self.turn = Turn::Layer;
        Ok(())
    }

    fn end_and_add(&mut self, version: u32, bytes: &[u8]) -> Result<(), AllocError>
        requires { version ≢ 2 }
        ensures { IsStep self.old self.new result (spec.add_foreign version bytes.now) }
    {
        self.end_layer()?;
        self.table.add_foreign(version, bytes)
    }

    fn end_and_copy(&mut self, alloc: Global) -> Result<Table, AllocError>
        ensures ended { OnOk result ((told : spec.Told) → HasTold self.old told
            → HasTold self.new (spec.ended told)) }
        ensures rows { IfOk result (λ table. table ≡ self.new.table) }
    {
        self.end_layer()?;
        self.table.copied(alloc)
    }

    fn begin_feature(&mut self, kind: u32) -> Result<(), AllocError>
        requires { has_layer self.old.turn ≡ true }
        ensures { IsStep self.old self.new result (spec.begin_feature kind) }
    {
        self.end_feature()?;
        self.feature = self.table.open_feature(kind);
        self.turn = Turn::Feature;
        Ok(())
    }

    fn add_feature(
        &mut self,
        kind: u32,
        id: Option<u64>,
        tags: &[u32],
        parts: &[PartRow],
        points: &[PointRow],
    ) -> Result<(), AllocError>
        requires { has_layer self.old.turn ≡ true }
        ensures { (parts_told : List spec.ToldPart)
            → spec.told_parts kind points.now parts.now ≡ Some parts_told
            → IsStep self.old self.new result
            (spec.add_feature kind id tags.now (Some parts_told)) }
    {
        self.begin_feature(kind)?;
        self.feature.id = id;
        self.table.add_tags(tags)?;
        self.add_parts(kind, parts, points)?;
        self.end_feature()
    }

    /// Adds parts, which are spans of these points, to the feature of this kind that has begun.
    fn add_parts(
        &mut self,
        kind: u32,
        parts: &[PartRow],
        points: &[PointRow],
    ) -> Result<(), AllocError>
        ensures holds { (t : Table) (l : spec.ToldLayer) (f : spec.ToldFeature)
            (told : List spec.ToldPart) → Holds self.old t (spec.InFeature l f)
            → spec.told_parts kind points.now parts.now ≡ Some told
            → OnOk result (Holds self.new t (spec.InFeature l (spec.with_parts f told))) }
        ensures failure { self.new.failure ≡ self.old.failure }
    {
        for part in parts {
            let Some(lent) = points_told(kind, part, points) else {
                return Ok(());
            };
            self.add_part(is_exterior(kind, part), lent)?;
        }
        Ok(())
    }

    /// Adds a part with its points to the feature that has begun.
    fn add_part(&mut self, exterior: bool, points: &[PointRow]) -> Result<(), AllocError>
        ensures holds { (t : Table) (l : spec.ToldLayer) (f : spec.ToldFeature)
            → Holds self.old t (spec.InFeature l f)
            → OnOk result (Holds self.new t
            (spec.InFeature l (spec.with_part f (spec.new_part exterior points.now)))) }
        ensures failure { self.new.failure ≡ self.old.failure }
    {
        let start = self.table.point_count();
        self.table.add_points(points)?;
        self.table.add_part_row(exterior, start)
    }

    fn begin_part(&mut self, exterior: bool) -> Result<(), AllocError>
        requires { has_feature self.old.turn ≡ true }
        ensures { IsStep self.old self.new result (spec.begin_part self.old.feature.kind exterior) }
    {
        self.end_part()?;
        self.exterior = exterior;
        self.part_at = self.table.point_count();
        self.turn = Turn::Part;
        Ok(())
    }

    /// Begins the part of a feature of points, where it has none.
    fn begin_points(&mut self)
        requires { takes_points self.old.turn self.old.feature.kind ≡ true }
        ensures holds { (t : Table) (begun : spec.Begun) → Holds self.old t begun
            → IsSomeAnd (spec.points_in [] begun) (Holds self.new t) }
        ensures failure { self.new.failure ≡ self.old.failure }
    {
        if let Turn::Feature = self.turn {
            self.exterior = false;
            self.part_at = self.table.point_count();
            self.turn = Turn::Part;
        }
    }

    /// The index of a key, which is added where it isn't there.
    fn key_index(&mut self, key: &[u8]) -> Result<u32, AllocError>
        ensures index { IfOk result (λ index. index ≡ place_in bytes_eq self.old.keys key.now) }
        ensures added { OnOk result (IsWithKeys self.old self.new
            (with_entry bytes_eq self.old.keys key.now)) }
    {
        self.key.set(key)?;
        index_of(&mut self.keys, &self.key)
    }

    /// The index of a value, which is added where it isn't there.
    fn value_index(&mut self, value: &AnyValue<'_>) -> Result<u32, AllocError>
        ensures index { IfOk result (λ index. index
            ≡ place_in same_given self.old.values (given_of value.now)) }
        ensures added { OnOk result (IsWithValues self.old self.new
            (with_entry same_given self.old.values (given_of value.now))) }
    {
        self.value.set(value)?;
        index_of(&mut self.values, &self.value)
    }

    fn add_tag(&mut self, key: &[u8], value: &AnyValue<'_>) -> Result<(), AllocError>
        requires { has_feature self.old.turn ≡ true }
        ensures { IsStep self.old self.new result (spec.add_tag key.now (given_of value.now)) }
    {
        let key = self.key_index(key)?;
        let value = self.value_index(value)?;
        self.table.add_tags(&[key, value])
    }
}

/// The points of a part of a feature of this kind, if it is a span of these, and if a ring says by
/// Whether a part of a feature of this kind is told as an exterior ring.
fn is_exterior(kind: u32, part: &PartRow) -> bool
    ensures { result ≡ spec.is_exterior_told kind part.now }
{
    kind == 3 && part.exterior == 1
}

/// 0 or 1 whether it is an exterior one.
fn points_told<'a>(kind: u32, part: &PartRow, points: &'a [PointRow]) -> Option<&'a [PointRow]>
    ensures { MatchOption result (spec.points_told kind points.now part.now ≡ None)
        (λ lent. spec.points_told kind points.now part.now ≡ Some lent.now) }
{
    if kind == 3 && part.exterior > 1 {
        return None;
    }
    find_part(points, part.points)
}

/// Whether each part of a feature of this kind can be told.
fn are_told(kind: u32, parts: &[PartRow], points: &[PointRow]) -> bool
    ensures { result ≡ is_some (spec.told_parts kind points.now parts.now) }
{
    for part in parts {
        let Some(_lent) = points_told(kind, part, points) else {
            return false;
        };
    }
    true
}

/// The index of an entry in a pool, to which it is added where it isn't there. A pool that is full
/// wants memory.
fn index_of<T: Entry>(pool: &mut Pool<T>, entry: &T) -> Result<u32, AllocError>
    ensures placed { IfOk result (λ index. IsPlaced pool.old pool.new entry.now (Ok index)) }
    ensures distinct { AreDistinct pool.old }
{
    let _held = pool.len();
    match pool.place(entry) {
        Ok(index) => Ok(index),
        Err(_) => Err(AllocError),
    }
}
