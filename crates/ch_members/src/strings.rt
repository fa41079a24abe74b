//! The strings of an array.
ghost use Rattle.std.specs.Prelude.{◌≡◌, IfOk};
ghost use Rattle.ch_base.specs.JsonTree.{Items};
ghost use Rattle.ch_base.specs.JsonParts.{items_of};
ghost use Rattle.ch_base.specs.FirstPlaces.{first_places};
ghost use Rattle.ch_members.specs.Readings.{Gives, IsArrayOf};
ghost use Rattle.ch_members.specs.ArrayStrings.{AreStrings};

use crate::array::Array;
use crate::values::string_at;
use ch_base::{Memory, Text, TextList};
use ch_json::Doc;
use std::alloc::Global;

/// What an array's values stand for; none where one of them is no string.
pub fn strings_of(
    alloc: Global,
    text: &str,
    doc: &Doc,
    array: Array,
) -> Result<Option<TextList>, Memory>
    requires { (vs : Items) × IsArrayOf text.now doc.now array vs }
    ensures { (vs : Items) → IsArrayOf text.now doc.now array vs → IfOk result (Gives (AreStrings text.now (items_of vs))) }
{
    let mut strings = TextList::new(alloc);
    for i in 0..array.count {
        let Some(string) = string_at(alloc, text, doc, array.item(doc, i))? else {
            return Ok(None);
        };
        strings.push(string)?;
    }
    Ok(Some(strings))
}

/// Each text of the list at its first place alone.
pub fn first_places(alloc: Global, texts: &[Text]) -> Result<TextList, Memory>
    ensures { IfOk result (λ kept. kept ≡ first_places texts.now) }
{
    let mut kept = TextList::new(alloc);
    for text in texts {
        if !kept.as_slice().contains(text) {
            kept.push(text.copy(alloc)?)?;
        }
    }
    Ok(kept)
}
