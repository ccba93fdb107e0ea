//! What a retained index is made from, for contracts.

use crate::stored::{DepthKey, StoredPrim};
use std::collections::BTreeMap;
use std::marker::Model;

/// The origin of a retained index, for contracts alone: in them a layer is the finite map from paths to prims. No value
/// of this type is made.
pub struct Layer {
    prims: BTreeMap<DepthKey, StoredPrim>,
}

impl Model for Layer {
    ghost use Rattle.hd_retained.specs.Layers.{Layer, layer_code};
    ghost use Rattle.hd_retained.specs.inner.Indexed.{layer_in};

    ghost Value = { Layer };

    ghost coded = { layer_code };

    ghost view = { λ layer. layer_in layer.prims };
}
