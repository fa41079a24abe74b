//! Arrays of a document.
ghost use Rattle.std.specs.Prelude.{◌≡◌, ◌<◌, ℕ, List, Some, length, slice_get};
ghost use Rattle.ch_base.specs.JsonTree.{Tree, Items};
ghost use Rattle.ch_base.specs.JsonParts.{items_of};
ghost use Rattle.ch_json.specs.NodeOf.{IsNode};

use ch_json::{Doc, Node};

/// An array of a document, which gave its node, and how many values it has.
#[derive(Clone, Copy, Debug, PartialEq, Eq)]
pub struct Array {
    pub node: Node,
    pub count: u64,
}

impl Array {
    ghost use Rattle.ch_members.specs.Readings.{IsArrayOf};

    /// The `i`-th value, from 0 on.
    pub fn item(self, doc: &Doc, i: u64) -> Node
        requires { (text : List ℕ) × (vs : Items) × IsArrayOf text doc.now self vs × (i < length (items_of vs)) }
        ensures { (text : List ℕ) (vs : Items) (v : Tree) → IsArrayOf text doc.now self vs →
            slice_get (items_of vs) i ≡ Some v → IsNode text doc.now result v }
    {
        doc.item(self.node, i)
    }
}
