//! The members of JSON objects, by their names (RFC 8259, section 4).
//!
//! [`object_of`] reads a text that is an object in which no name stands twice. What a member of a name
//! is, a string, an object, an array or any value as it is spelled, is read by the functions that end in
//! `_member`, and what one value is by those that end in `_at`: each gives exactly what there is, or none
//! where there is nothing of the kind.
#![tactic(auto)]

mod array;
mod members;
mod object;
mod strings;
mod values;

pub use array::Array;
pub use members::{
    array_member, is_absent, object_member, optional_member, spelled_member, string_member,
};
pub use object::{document_of, is_plain_object, object_of};
pub use strings::{first_places, strings_of};
pub use values::{array_at, object_at, optional_at, string_at};
