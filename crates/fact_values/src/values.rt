//! Values by key.

ghost use Rattle.std.specs.Prelude.{◌≡◌, None, OnOk};
ghost use Rattle.fact_values.specs.Keyed.{values_of, value_of, value_found, with_value, with_item};

use crate::texts::Texts;
use crate::value::Value;
use req_tree::Bytes;
use std::alloc::{AllocError, Global};
use std::collections::BTreeMap;

/// One value at most for each key.
#[derive(Drop)]
pub struct Values {
    map: BTreeMap<Vec<u8>, Value>,
}

impl Values {
    /// No value at any key.
    pub fn new(alloc: Global) -> Values
        ensures { values_of result ≡ (λ key. None) }
    {
        Values {
            map: BTreeMap::new(alloc),
        }
    }

    pub fn get(&self, key: &[u8]) -> Option<&Value>
        ensures { value_found result ≡ values_of self.now key.now }
    {
        self.map.get(key)
    }

    /// Sets the value of a key.
    pub fn put(&mut self, alloc: Global, key: &[u8], value: Value) -> Result<(), AllocError>
        ensures { OnOk result (values_of self.new ≡ with_value key.now (value_of value) (values_of self.old)) }
    {
        let key = Vec::from_slice(alloc, key)?;
        self.map.insert(key, value)?;
        Ok(())
    }

    /// Adds a member to the list at a key, which it begins where the key has no value.
    pub fn put_item(&mut self, alloc: Global, key: &[u8], text: &[u8]) -> Result<(), AllocError>
        ensures { OnOk result (values_of self.new ≡ with_item key.now text.now (values_of self.old)) }
    {
        let text = Bytes::copy_of(alloc, text)?;
        match self.map.get_mut(key) {
            Some(value) => add_item(value, text),
            None => {
                let mut texts = Texts::new(alloc);
                texts.push(text)?;
                self.put(alloc, key, Value::Many(texts))
            }
        }
    }
}

ghost use Rattle.fact_values.specs.Keyed.{more_of};

/// Adds a member to a value that is a list with members; another value stays.
fn add_item(value: &mut Value, text: Bytes) -> Result<(), AllocError>
    ensures { OnOk result (value_of value.new ≡ more_of text (value_of value.old)) }
{
    match value {
        Value::Many(texts) => {
            if texts.is_empty() {
                Ok(())
            } else {
                texts.push(text)
            }
        }
        _ => Ok(()),
    }
}
