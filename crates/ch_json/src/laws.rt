//! What holds of every text.
ghost use Rattle.std.specs.Prelude.{◌≡◌, ◌≤◌, ℕ, List};
ghost use Rattle.ch_base.specs.JsonTree.{Tree, Members};
ghost use Rattle.ch_base.specs.JsonText.{Spells, SpellsWithin, Unescapes};
ghost use Rattle.ch_base.specs.declared.limits.TheConstants.{MAX_DEPTH};
ghost use Rattle.ch_base.specs.JsonParts.{part, spelled_at, IsSpelledIn};
ghost use Rattle.ch_base.specs.JsonNames.{Named};
ghost use Rattle.ch_json.specs.Levels.{levels};

/// A text spells at most one tree.
pub fn one_tree()
    ensures { (text : List ℕ) (v : Tree) (w : Tree) → Spells text v → Spells text w → v ≡ w }
{}

/// A string has at most one text.
pub fn one_text()
    ensures { (bytes : List ℕ) (v : List ℕ) (w : List ℕ) → Unescapes bytes v → Unescapes bytes w → v ≡ w }
{}

/// The members of an object with a name have one list of values.
pub fn one_list()
    ensures { (text : List ℕ) (name : List ℕ) (ms : Members) (vs : List Tree) (ws : List Tree) →
        Named text name ms vs → Named text name ms ws → vs ≡ ws }
{}

/// A value inside a text is a JSON text of its own, with as many open brackets as the value has levels.
pub fn value_alone()
    ensures { (text : List ℕ) (v : Tree) → IsSpelledIn text v →
        (w : Tree) × SpellsWithin (levels v) (part text (spelled_at v)) w }
{}

/// A JSON text has at most `MAX_DEPTH` levels.
pub fn most_levels()
    ensures { (text : List ℕ) (v : Tree) → Spells text v → levels v ≤ MAX_DEPTH }
{}
