//! How a document stores its values: a value's entry stands behind the entries of what it holds.
ghost use Rattle.std.specs.Prelude.{◌≡◌, ◌<◌, length, slice_get, Some};
ghost use Rattle.ch_json.specs.Content.{form_of_content, values_in, keys_in};

use crate::node::Form;
use crate::span::Span;

/// A value that holds no others.
#[derive(Clone, Copy, Debug)]
pub enum Plain {
    Null,
    False,
    True,
    Number,
    Str,
}

/// A member of an object: where its name stands, with the quotes, and its value's entry.
#[derive(Clone, Copy, Debug)]
pub struct Member {
    pub key: Span,
    pub value: usize,
}

/// A value's form, with the entries of the values that it holds.
#[derive(Debug, Drop)]
pub enum Content {
    Plain(Plain),
    List(Vec<usize>),
    Object(Vec<Member>),
}

impl Content {
    pub fn form(&self) -> Form
        ensures { result ≡ form_of_content self.now }
    {
        match self {
            Content::Plain(Plain::Null) => Form::Null,
            Content::Plain(Plain::False) => Form::False,
            Content::Plain(Plain::True) => Form::True,
            Content::Plain(Plain::Number) => Form::Number,
            Content::Plain(Plain::Str) => Form::Str,
            Content::List(items) => Form::List(items.len() as u64),
            Content::Object(members) => Form::Object(members.len() as u64),
        }
    }

    /// The entry of the `i`-th value that it holds.
    pub fn value(&self, i: usize) -> usize
        requires { i < length (values_in self.now) }
        ensures { slice_get (values_in self.now) i ≡ Some result }
    {
        match self {
            Content::Plain(_) => unreachable!(),
            Content::List(items) => items[i],
            Content::Object(members) => members[i].value,
        }
    }

    /// The span of the `i`-th name.
    pub fn key(&self, i: usize) -> Span
        requires { i < length (keys_in self.now) }
        ensures { slice_get (keys_in self.now) i ≡ Some result }
    {
        match self {
            Content::Plain(_) | Content::List(_) => unreachable!(),
            Content::Object(members) => members[i].key,
        }
    }
}

#[derive(Debug, Drop)]
pub struct Entry {
    pub content: Content,
    pub span: Span,
}
