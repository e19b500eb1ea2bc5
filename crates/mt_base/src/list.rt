ghost use Rattle.std.specs.Prelude.{◌≡◌, [], ◌∷◌, ◌++◌, ◌<◌, List, length, IfOk, OnOk, OnErr};

use mt_memory::Memory;
use std::alloc::Global;
use std::marker::Model;

/// A list of plain values, seen as that list.
#[derive(Drop)]
pub struct Listed<T> {
    pub(crate) values: Vec<T>,
}

impl<T> Model for Listed<T> {
    ghost use Rattle.std.specs.Prelude.{List};

    ghost Value = { List T };

    ghost view = { λ l. l.values.items };
}

impl<T: Drop> Listed<T> {
    /// The empty list.
    pub fn make(alloc: Global) -> Result<Listed<T>, Memory>
        ensures { OnOk result (result ≡ Ok []) }
    {
        Ok(Listed {
            values: Vec::new(alloc),
        })
    }

    /// The list of these values. It takes no memory.
    pub fn of(values: Vec<T>) -> Listed<T>
        ensures { result ≡ values.items }
    {
        Listed { values }
    }

    /// Puts a value after the others. On an error the list stays as it was.
    pub fn push(&mut self, value: T) -> Result<(), Memory>
        ensures ok { OnOk result (self.new ≡ self.old ++ value ∷ []) }
        ensures err { OnErr result (self.new ≡ self.old) }
    {
        self.values.push(value)?;
        Ok(())
    }

    /// Takes the last value out again.
    pub fn drop_last(&mut self)
        requires { 0 < length self.old }
        ensures { (front : List T) (value : T) → self.old ≡ front ++ value ∷ [] → self.new ≡ front }
    {
        self.values.truncate(self.values.len() - 1);
    }

    /// Its last value.
    pub fn last(&self) -> &T
        requires { 0 < length self.now }
        ensures { (front : List T) (value : T) → self.now ≡ front ++ value ∷ [] → result.now ≡ value }
    {
        &self.values[self.values.len() - 1]
    }

    /// Its values, in order.
    pub fn items(&self) -> &[T]
        ensures { result.now ≡ self.now }
    {
        &self.values
    }
}

impl<T: Copy + Drop> Listed<T> {
    /// The list of the same values as these.
    pub fn of_items(alloc: Global, items: &[T]) -> Result<Listed<T>, Memory>
        ensures { IfOk result (λ list. list ≡ items.now) }
    {
        let mut values = Vec::new(alloc);
        values.extend_from_slice(items)?;
        Ok(Listed { values })
    }

    /// The same list once more.
    pub fn copy(&self, alloc: Global) -> Result<Listed<T>, Memory>
        ensures { IfOk result (λ list. list ≡ self.now) }
    {
        Listed::of_items(alloc, self.items())
    }
}
