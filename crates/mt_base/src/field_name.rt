ghost use Rattle.std.specs.Prelude.{◌≡◌, OnOk, Ok};

use mt_memory::Memory;
use std::alloc::Global;
use std::marker::Model;

/// The name of a field of a line, seen as its bytes.
#[derive(Drop)]
pub struct FieldName {
    name: Vec<u8>,
}

impl Model for FieldName {
    ghost use Rattle.std.specs.Prelude.{ℕ, List};

    ghost Value = { List ℕ };

    ghost view = { λ f. f.name.items };
}

impl FieldName {
    /// The field name of these bytes.
    pub fn of(alloc: Global, name: &[u8]) -> Result<FieldName, Memory>
        ensures { OnOk result (result ≡ Ok name.now) }
    {
        let name = Vec::from_slice(alloc, name)?;
        Ok(FieldName { name })
    }

    /// Its bytes.
    pub fn bytes(&self) -> &[u8]
        ensures { result.now ≡ self.now }
    {
        &self.name
    }
}
