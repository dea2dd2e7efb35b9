//! What receives the features of a layer that is canonical, or is made so (Mapbox Vector Tile
//! Specification 2.1, 4.2).
ghost use Rattle.std.specs.Prelude.{◌≡◌, [], ◌∷◌, ◌++◌, List, OnOk};
ghost use Rattle.mvt_feature.specs.declared.feature.Feature.{Feature as AFeature};
ghost use Rattle.mvt_geometry.specs.declared.shape.Point.{Point as APoint};
ghost use Rattle.mvt_geometry.specs.Shape.{kind_of};
ghost use Rattle.mvt_geometry.specs.Visiting.{HasDrawn, Part};
ghost use Rattle.mvt_message.specs.declared.item.Item.{Item};

use mvt_feature::FeatureFields;
use mvt_geometry::{GeometryVisitor, Ignore};
use std::alloc::{AllocError, Global};

/// An object that receives the features of a layer, one after another: the parts of each geometry,
/// and then the feature's end.
pub trait FeatureVisitor: GeometryVisitor {
    // What it has of the items before this one and of these features.
    ghost has_features: { List Item → Self → List AFeature → Type 0 };

    /// Forgets what it was told of a feature that hasn't ended.
    fn begin_feature(&mut self)
        ensures { (items : List Item) (features : List AFeature) (start : Self)
            (parts : List Part) (begun : List APoint) → has_features items start features
            → Self.has_parts start parts begun self.old → has_features items self.new features };

    /// Ends a feature of this id and this type, whose geometry was told.
    ///
    /// # Errors
    ///
    /// When memory runs out.
    fn end_feature(&mut self, alloc: Global, known: &FeatureFields) -> Result<(), AllocError>
        ensures { (items : List Item) (features : List AFeature) (f : AFeature) (start : Self)
            → has_features items start features
            → HasDrawn Self.has_parts Self.has_integers start self.old f.geometry
            → f.id ≡ known.now.id → known.now.kind ≡ kind_of f.geometry
            → OnOk result (has_features items self.new (features ++ f ∷ [])) };
}

impl FeatureVisitor for Ignore {
    ghost has_features = { λ _ _ _. Unit {0} };

    #[inline(always)]
    fn begin_feature(&mut self) {}

    #[inline(always)]
    fn end_feature(&mut self, _: Global, _: &FeatureFields) -> Result<(), AllocError> {
        Ok(())
    }
}
