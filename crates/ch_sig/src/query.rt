ghost use Rattle.std.specs.Prelude.{◌≡◌, ◌↔◌, [], IsSome, OnErr, option_copied};
ghost use Rattle.std.specs.List.{prefix_len};
ghost use Rattle.ch_sig.specs.Parameters.{IsAscending, HasName, is_before, value_of, with_param};

use ch_base::{Memory, Text};
use std::alloc::Global;
use std::marker::Model;

/// A parameter of a request's query, decoded.
#[derive(Debug, Drop)]
pub struct Param {
    pub name: Text,
    pub value: Text,
}

/// What became of a parameter that was handed in.
#[derive(Clone, Copy, Debug, PartialEq, Eq)]
pub enum Inserted {
    /// It is among the parameters now.
    Fresh,
    /// Its name was there, and the first value stays.
    Double,
}

/// The parameters of a request's query.
///
/// Contracts see them as a list that ascends by the bytes of the names, of which none stands twice.
#[derive(Debug, Drop)]
pub struct Params {
    list: Vec<Param>,
}

impl Model for Params {
    ghost use Rattle.std.specs.Prelude.{List};
    ghost use Rattle.ch_sig.specs.declared.query.Param.{Param};
    ghost use Rattle.ch_sig.specs.Parameters.{IsAscending};

    ghost Value = { List Param };

    ghost view = { λ p. p.list.items };

    ghost invariant = { λ p. IsAscending p.list.items };
}

impl Params {
    /// No parameters; this takes no memory.
    pub fn new(alloc: Global) -> Params
        ensures { result ≡ [] }
    {
        Params {
            list: Vec::new(alloc),
        }
    }

    /// Adds a parameter, unless its name is there. After `Memory` the parameters are as before.
    pub fn insert(&mut self, name: Text, value: Text) -> Result<Inserted, Memory>
        ensures fresh { result ≡ Ok Inserted.Fresh → self.new ≡ with_param self.old (record { name = name; value = value }) }
        ensures double { (result ≡ Ok Inserted.Double) ↔ HasName self.old name }
        ensures kept { result ≡ Ok Inserted.Double → self.new ≡ self.old }
        ensures err { OnErr result (self.new ≡ self.old) }
    {
        if self.get(name.as_str()).is_some() {
            return Ok(Inserted::Double);
        }
        let place = place_of(self.list.as_slice(), name.as_str());
        self.list.insert(place, Param { name, value })?;
        Ok(Inserted::Fresh)
    }

    /// The value of a name, unless the name isn't there.
    pub fn get(&self, name: &str) -> Option<&Text>
        ensures value { option_copied result ≡ value_of self.now name.now }
        ensures found { IsSome result ↔ HasName self.now name.now }
    {
        let found = self.list.iter().find(|param| param.name.as_str() == name)?;
        Some(&found.value)
    }

    /// All parameters, ascending by name.
    pub fn as_slice(&self) -> &[Param]
        ensures all { result.now ≡ self.now }
        ensures ascending { IsAscending self.now }
    {
        self.list.as_slice()
    }
}

/// How many of the first parameters have names that come before this one.
fn place_of(params: &[Param], name: &str) -> usize
    ensures { result ≡ prefix_len (λ p. is_before p.name name.now) params.now }
{
    params
        .iter()
        .take_while(|param| param.name.as_str() < name)
        .count()
}
