// Names with values, in the order in which they are signed.
ghost use Rattle.std.specs.Prelude.{◌≡◌, ◌++◌, [], ◌∷◌, IfOk, OnOk};

use json_tree::Text;
use std::alloc::{AllocError, Global};
use std::marker::Model;

/// A field of a request, or a parameter of its query.
#[derive(Drop)]
pub struct Field {
    /// The name; of a field in lower case.
    pub name: Text,
    /// The value.
    pub value: Text,
}

impl Field {
    /// The field of this name and value. The error is want of memory.
    pub fn of(alloc: Global, name: &str, value: &str) -> Result<Field, AllocError>
        ensures name { IfOk result (λ f. f.name ≡ name.now) }
        ensures value { IfOk result (λ f. f.value ≡ value.now) }
    {
        Ok(Field {
            name: Text::of(String::from_str(alloc, name)?),
            value: Text::of(String::from_str(alloc, value)?),
        })
    }
}

/// Fields, or parameters, in order.
#[derive(Drop)]
pub struct Fields {
    items: Vec<Field>,
}

impl Model for Fields {
    ghost use Rattle.std.specs.Prelude.{List};
    ghost use Rattle.signed_call.specs.declared.field.Field.{Field};

    ghost Value = { List Field };

    ghost view = { λ f. f.items.items };
}

impl Fields {
    /// No fields.
    pub fn new(alloc: Global) -> Fields
        ensures { result ≡ [] }
    {
        Fields {
            items: Vec::new(alloc),
        }
    }

    /// Adds a field behind the others. The error is want of memory.
    pub fn push(&mut self, alloc: Global, name: &str, value: &str) -> Result<(), AllocError>
        ensures { OnOk result (self.new ≡ self.old ++ record { name = name.now; value = value.now } ∷ []) }
    {
        self.items.push(Field::of(alloc, name, value)?)?;
        Ok(())
    }

    /// The fields, in order.
    pub fn items(&self) -> &[Field]
        ensures { result.now ≡ self.now }
    {
        &self.items
    }
}
