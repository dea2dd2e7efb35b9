//! A layer made canonical one feature after another: each is written, and passed to a visitor
//! (Mapbox Vector Tile Specification 2.1, 4.1).
ghost use Rattle.std.specs.Prelude.{◌≡◌, ℕ, [], ◌++◌, List, IfOk, OnErr, OnOk};
ghost use Rattle.mvt_base.specs.Related.{Extends};
ghost use Rattle.mvt_wire.specs.Spelling.{spelled};
ghost use Rattle.mvt_message.specs.declared.item.Item.{Item};
ghost use Rattle.mvt_message.specs.CanonicalItems.{head_fields};
ghost use Rattle.mvt_message.specs.Items.{IsItem};
ghost use Rattle.mvt_message.specs.Rewriting.{HasOnlyValues, HasRewritten, IsRewrittenAs, tail_of};
ghost use Rattle.mvt_message.specs.ValidItems.{ValidItem};
ghost use Rattle.mvt_message.specs.Visiting.{IsVisited};

use crate::feature_visitor::FeatureVisitor;
use crate::layer_writer::{LayerWriter, put_head};
use crate::visiting::{LayerVisitor, Visited};
use mvt_attrs::{LayerKeys, ValueRef};
use mvt_feature::{MessageError, Scratch, read_value_ref};
use std::alloc::{AllocError, Global};
use std::mem;

/// An item that was made canonical.
#[derive(Drop)]
pub enum Rewritten<'a, V: FeatureVisitor> {
    Layer(RewrittenLayer<'a, V>),
    /// A layer of another version, whose payload is canonical as it stands.
    Foreign(u32),
}

/// The canonical parts of a layer, in order: the head, the features, the tail.
#[derive(Drop)]
pub struct RewrittenLayer<'a, V: FeatureVisitor> {
    pub name: &'a str,
    pub(crate) extent: u32,
    pub(crate) writer: LayerWriter<'a>,
    pub visitor: V,
}

impl<'a, V: FeatureVisitor> RewrittenLayer<'a, V> {
    /// Appends the fields before those of the features.
    ///
    /// # Errors
    ///
    /// When memory runs out; the list is then unchanged or longer.
    pub fn append_head(&self, out: &mut Vec<u8>) -> Result<(), AllocError>
        ensures ok { OnOk result (out.new.items
            ≡ out.old.items ++ spelled (head_fields self.now.name.now)) }
        ensures left { OnErr result (Extends out.old.items out.new.items) }
    {
        put_head(out, self.name)
    }

    /// The fields of the features.
    pub fn features(&self) -> &[u8]
        ensures { result.now ≡ self.now.writer.features.items }
    {
        &self.writer.features
    }

    /// Appends the fields after those of the features.
    ///
    /// # Errors
    ///
    /// When memory runs out; the list is then unchanged or longer.
    pub fn append_tail(&self, out: &mut Vec<u8>) -> Result<(), AllocError>
        ensures ok { OnOk result (out.new.items
            ≡ out.old.items ++ tail_of self.now.writer.uses self.now.extent) }
        ensures left { OnErr result (Extends out.old.items out.new.items) }
    {
        self.writer.append_tail(out, self.extent)
    }
}

/// Writes the features of a layer as [`visit_version_2`](crate::visit_version_2) visits them, and
/// has a visitor be told them.
///
/// ```ignore
/// let mut rewriter = LayerRewriter::new(alloc, Ignore, payload.len())?;
/// let visited = visit_version_2(alloc, &mut rewriter, payload, payload_at, tag_at)?;
/// match rewriter.finish(visited) {
///     Rewritten::Layer(layer) => layer.append_tail(&mut out)?,
///     Rewritten::Foreign(_) => {}
/// }
/// ```
///
/// A key or a value is found by its hashes, and if others have these too, in order. So the time
/// grows as sorting the payload, whatever its texts are. It holds the fields of the layer's
/// features, and is lent its keys and values.
#[derive(Drop)]
pub struct LayerRewriter<'a, V: FeatureVisitor> {
    /// The values until the keys come: then the writer takes them all at once.
    values: Vec<ValueRef<'a>>,
    writer: LayerWriter<'a>,
    visitor: V,
}

impl<'a, V: FeatureVisitor> LayerRewriter<'a, V> {
    /// It has nothing yet, but room for the features of a payload of so many bytes.
    ///
    /// # Errors
    ///
    /// When memory runs out.
    pub fn new(alloc: Global, visitor: V, bytes: usize) -> Result<Self, AllocError>
        ensures { (items : List Item) → V.has_features items visitor []
            → IfOk result (λ rewriter. HasOnlyValues (V.has_features items) rewriter []) }
    {
        Ok(LayerRewriter {
            values: Vec::new(alloc),
            writer: LayerWriter::with_room(alloc, bytes)?,
            visitor,
        })
    }

    /// The item that it visited, made canonical.
    pub fn finish(self, visited: Visited<'a>) -> Rewritten<'a, V>
        ensures { (items : List Item) (payload : List ℕ) (item : Item) → IsItem payload item
            → ValidItem item
            → IsVisited (λ r. V.has_features items r.visitor [])
            (HasRewritten (V.has_features items)) payload self.entry visited.entry item
            → IsRewrittenAs (V.has_features items) payload result }
    {
        let LayerRewriter {
            writer,
            visitor,
            ..
        } = self;
        match visited {
            Visited::Layer { name, extent } => Rewritten::Layer(RewrittenLayer {
                name,
                extent,
                writer,
                visitor,
            }),
            Visited::Foreign { version } => Rewritten::Foreign(version),
        }
    }
}

impl<'a, V: FeatureVisitor> LayerVisitor<'a> for LayerRewriter<'a, V> {
    ghost use Rattle.std.specs.Prelude.{List, []};
    ghost use Rattle.mvt_message.specs.declared.item.Item.{Item};
    ghost use Rattle.mvt_message.specs.Rewriting.{HasOnlyValues, HasRewritten};

    ghost Given = { List Item };

    ghost has_given = { λ items r. V.has_features items r.visitor [] };

    ghost has_values = { λ items r values. HasOnlyValues (V.has_features items) r values };

    ghost has_features = { λ items keys values r payloads features.
        HasRewritten (V.has_features items) keys values r payloads features };

    fn visit_value(
        &mut self,
        _: Global,
        payload: &'a [u8],
        payload_at: u64,
        tag_at: u64,
    ) -> Result<(), MessageError> {
        self.values
            .push(read_value_ref(payload, payload_at, tag_at)?)?;
        Ok(())
    }

    fn visit_keys(&mut self, alloc: Global, keys: &[&'a str], _: usize) -> Result<(), AllocError> {
        let values = taken(alloc, &mut self.values);
        self.writer.take_values(values)?;
        self.writer.place_keys(keys)
    }

    fn visit_feature(
        &mut self,
        alloc: Global,
        payload: &[u8],
        payload_at: u64,
        keys: &mut LayerKeys<'_>,
        _: usize,
        scratch: &mut Scratch,
    ) -> Result<(), MessageError> {
        let LayerRewriter {
            writer,
            visitor,
            ..
        } = self;
        writer.write_feature(alloc, visitor, payload, payload_at, keys, scratch)
    }
}

/// The values of a list, which has none then.
fn taken<'a>(alloc: Global, values: &mut Vec<ValueRef<'a>>) -> Vec<ValueRef<'a>>
    ensures { result.items ≡ values.old.items }
{
    mem::replace(values, Vec::new(alloc))
}
