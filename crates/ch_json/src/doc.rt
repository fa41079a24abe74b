//! A JSON text that was read: its values, each with its part of the text.
ghost use Rattle.std.specs.Prelude.{◌≡◌, ◌<◌, ℕ, List, Some, map, slice_get};
ghost use Rattle.ch_base.specs.JsonTree.{Span as TreeSpan, Tree, plain, string};
ghost use Rattle.ch_base.specs.JsonText.{Spells};
ghost use Rattle.ch_base.specs.JsonParts.{spelled_at, values_of, names_of, IsSpelledIn};
ghost use Rattle.ch_json.specs.Entries.{held, span_of};
ghost use Rattle.ch_json.specs.NodeOf.{HasTree, IsNode, HasNode, HasValue, HasName, form_of};

use crate::entry::{Content, Entry};
use crate::node::{Form, Node};
use crate::span::Span;
use std::marker::Model;

/// A text that was read: the tree of its values.
///
/// Its methods take no memory. They are about the nodes that this document gave: for any text and
/// any value that the node stands for, they tell that value's parts.
#[derive(Debug, Drop)]
pub struct Doc {
    entries: Vec<Entry>,
    top: usize,
}

impl Model for Doc {
    ghost use Rattle.ch_json.specs.Document.{Document};

    ghost Value = { Document };

    ghost use Rattle.ch_json.specs.DocView.{document_of};

    ghost view = { document_of };
}

impl Doc {
    pub(crate) fn of(entries: Vec<Entry>, top: usize) -> Doc
        ensures { result ≡ record { nodes = map held entries.items; top = top } }
    {
        Doc { entries, top }
    }

    /// The value of the whole text.
    pub fn top(&self) -> Node
        ensures { (text : List ℕ) (v : Tree) → Spells text v → HasTree self.now v → IsNode text self.now result v }
    {
        Node { index: self.top }
    }

    /// What the value is, with the count of the values or members that it holds.
    pub fn form(&self, node: Node) -> Form
        requires { HasNode self.now node }
        ensures { (text : List ℕ) (v : Tree) → IsNode text self.now node v → result ≡ form_of v }
    {
        self.entries[node.index].content.form()
    }

    /// The part of the text that spells the value.
    pub fn span(&self, node: Node) -> Span
        requires { HasNode self.now node }
        ensures { (text : List ℕ) (v : Tree) → IsNode text self.now node v → span_of result ≡ spelled_at v }
    {
        self.entries[node.index].span
    }

    /// The `i`-th value of an array, or the value of the `i`-th member of an object, from 0 on.
    pub fn item(&self, node: Node, i: u64) -> Node
        requires { HasValue self.now node i }
        ensures { (text : List ℕ) (v w : Tree) → IsNode text self.now node v → slice_get (values_of v) i ≡ Some w →
            IsNode text self.now result w }
    {
        Node {
            index: self.entries[node.index].content.value(i as usize),
        }
    }

    /// The span of the name of an object's `i`-th member, from 0 on, with the quotes.
    pub fn key(&self, node: Node, i: u64) -> Span
        requires { HasName self.now node i }
        ensures place { (text : List ℕ) (v : Tree) (s : TreeSpan) → IsNode text self.now node v →
            slice_get (names_of v) i ≡ Some s → span_of result ≡ s }
        ensures name { (text : List ℕ) (v : Tree) (s : TreeSpan) → IsNode text self.now node v →
            slice_get (names_of v) i ≡ Some s → IsSpelledIn text (plain string (span_of result)) }
    {
        self.entries[node.index].content.key(i as usize)
    }
}
