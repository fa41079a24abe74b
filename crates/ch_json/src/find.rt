//! Finding a member by its name.
ghost use Rattle.std.specs.Prelude.{List};
ghost use Rattle.ch_base.specs.JsonTree.{Span as TreeSpan, Tree, Members, object};
ghost use Rattle.ch_base.specs.JsonNames.{Named};
ghost use Rattle.ch_json.specs.NodeOf.{IsNode, IsObject, Finds};

use crate::doc::Doc;
use crate::node::{Form, Found, Node};
use crate::unescape_string::is_named;

impl Doc {
    /// The member of an object that has this name, by its unescaped bytes. `text` is the text that
    /// was read.
    pub fn find(&self, text: &str, node: Node, name: &str) -> Found
        requires { IsObject text.now self.now node }
        ensures { (ms : Members) (s : TreeSpan) → IsNode text.now self.now node (object ms s) →
            (vs : List Tree) × Named text.now name.now ms vs × Finds text.now self.now vs result }
    {
        let Form::Object(count) = self.form(node) else {
            return Found::Absent;
        };
        let mut found = Found::Absent;
        for i in 0..count {
            if is_named(self.key(node, i).part(text), name) {
                if let Found::One(_) = found {
                    return Found::Many;
                }
                found = Found::One(self.item(node, i));
            }
        }
        found
    }
}
