//! A JSON object (RFC 8259) that is written member by member.

ghost use Rattle.std.specs.Prelude.{◌≡◌, ◌≤◌, false, map, Some, IfOk, OnOk};
ghost use Rattle.std.specs.Str.{IsUtf8};
ghost use Rattle.serde_json.specs.Data.{boolean, string, array, item, no_items, object as object_data, no_members, put, depth};
ghost use Rattle.serde_json.specs.Read.{read, max_depth};
ghost use Rattle.serde_json.specs.View.{view, members_view};
ghost use Rattle.serde_json.specs.Written.{has_float, members_have_float, compact_text};
ghost use Rattle.line_members.specs.Values.{with_field, number_data, signed_data, hex_data, text_data, entry_data, entries_data, object_line};
ghost use Rattle.line_members.specs.Values.{alias_data};

use rule_model::Entries;
use serde_json::{Map, Value};
use std::alloc::{AllocError, Global};
use std::str;
use tags::Bytes;

/// The members of one JSON object, without a float.
#[derive(Drop)]
pub struct WrittenObject {
    alloc: Global,
    entries: Map<String, Value>,
    ghost no_float: { members_have_float (members_view entries.entries) ≡ false },
}

impl WrittenObject {
    /// No member.
    pub fn new(alloc: Global) -> WrittenObject
        ensures { members_view result.entries.entries ≡ no_members }
    {
        WrittenObject {
            alloc,
            entries: Map::new(alloc),
        }
    }

    /// Where its memory comes from.
    pub fn alloc(&self) -> Global {
        self.alloc
    }

    fn put(&mut self, name: &str, value: Value) -> Result<(), AllocError>
        requires { has_float (view value) ≡ false }
        ensures { OnOk result (members_view self.new.entries.entries ≡ put name.now (view value) (members_view self.old.entries.entries)) }
    {
        serde_json::put(&mut self.entries, self.alloc, name, value)
    }

    /// A signed number, as the member `name`.
    pub fn put_signed(&mut self, name: &str, number: i32) -> Result<(), AllocError>
        ensures { OnOk result (members_view self.new.entries.entries ≡ put name.now (signed_data number) (members_view self.old.entries.entries)) }
    {
        self.put(name, Value::from(number))
    }

    /// A number, as the member `name`.
    pub fn put_number(&mut self, name: &str, number: u64) -> Result<(), AllocError>
        ensures { OnOk result (members_view self.new.entries.entries ≡ put name.now (number_data number) (members_view self.old.entries.entries)) }
    {
        self.put(name, Value::from(number))
    }

    /// A truth value, as the member `name`.
    pub fn put_flag(&mut self, name: &str, flag: bool) -> Result<(), AllocError>
        ensures { OnOk result (members_view self.new.entries.entries ≡ put name.now (boolean flag) (members_view self.old.entries.entries)) }
    {
        self.put(name, Value::from(flag))
    }

    /// A text, as the member `name`.
    pub fn put_str(&mut self, name: &str, text: &str) -> Result<(), AllocError>
        ensures { OnOk result (members_view self.new.entries.entries ≡ put name.now (string text.now) (members_view self.old.entries.entries)) }
    {
        let value = Value::try_from_str(self.alloc, text)?;
        self.put(name, value)
    }

    /// Bytes as lower-case hex, as the member `name`.
    pub fn put_hex(&mut self, name: &str, bytes: &[u8]) -> Result<(), AllocError>
        ensures { OnOk result (members_view self.new.entries.entries ≡ put name.now (hex_data bytes.now) (members_view self.old.entries.entries)) }
    {
        let text = hex::encode(self.alloc, bytes)?;
        self.put(name, Value::from(text))
    }

    /// An object, as the member `name`.
    pub fn put_object(&mut self, name: &str, object: WrittenObject) -> Result<(), AllocError>
        ensures { OnOk result (members_view self.new.entries.entries ≡ put name.now (object_data (members_view object.entries.entries)) (members_view self.old.entries.entries)) }
    {
        let WrittenObject { alloc: _, entries } = object;
        self.put(name, Value::from(entries))
    }

    /// Two numbers as an array, as the member `name`.
    pub fn put_pair(&mut self, name: &str, first: u64, second: u64) -> Result<(), AllocError>
        ensures { OnOk result (members_view self.new.entries.entries ≡ put name.now (array (item (number_data first) (item (number_data second) no_items))) (members_view self.old.entries.entries)) }
    {
        let mut pair = Vec::new(self.alloc);
        pair.push(Value::from(first))?;
        pair.push(Value::from(second))?;
        self.put(name, Value::from(pair))
    }

    /// An alias as its text, or where it is no UTF-8 as an object with its hex, as the member `name`.
    fn put_alias(&mut self, name: &str, alias: &Bytes) -> Result<(), AllocError>
        ensures { OnOk result (members_view self.new.entries.entries ≡ put name.now (alias_data alias.now) (members_view self.old.entries.entries)) }
    {
        match str::from_utf8(alias.as_slice()) {
            Ok(text) => self.put_str(name, text),
            Err(_) => {
                let mut object = WrittenObject::new(self.alloc);
                object.put_hex("hex", alias.as_slice())?;
                self.put_object(name, object)
            }
        }
    }

    /// A number, where the field is there.
    pub fn put_number_if(&mut self, name: &str, field: Option<u64>) -> Result<(), AllocError>
        ensures { OnOk result (members_view self.new.entries.entries ≡ with_field number_data name.now field (members_view self.old.entries.entries)) }
    {
        match field {
            None => Ok(()),
            Some(number) => self.put_number(name, number),
        }
    }

    /// Bytes as lower-case hex, where the field is there.
    pub fn put_hex_if(&mut self, name: &str, field: &Option<Bytes>) -> Result<(), AllocError>
        ensures { OnOk result (members_view self.new.entries.entries ≡ with_field hex_data name.now field.now (members_view self.old.entries.entries)) }
    {
        match field {
            None => Ok(()),
            Some(bytes) => self.put_hex(name, bytes.as_slice()),
        }
    }

    /// An alias, where the field is there.
    pub fn put_alias_if(&mut self, name: &str, field: &Option<Bytes>) -> Result<(), AllocError>
        ensures { OnOk result (members_view self.new.entries.entries ≡ with_field alias_data name.now field.now (members_view self.old.entries.entries)) }
    {
        match field {
            None => Ok(()),
            Some(alias) => self.put_alias(name, alias),
        }
    }

    /// A text, where the field is there.
    pub fn put_text_if(&mut self, name: &str, field: &Option<Bytes>) -> Result<(), AllocError>
        ensures { OnOk result (members_view self.new.entries.entries ≡ with_field text_data name.now field.now (members_view self.old.entries.entries)) }
    {
        match field {
            None => Ok(()),
            Some(bytes) => {
                let text = String::from_utf8_lossy(self.alloc, bytes.as_slice())?;
                self.put(name, Value::from(text))
            }
        }
    }

    /// The entries of a listing, where the field is there.
    pub fn put_entries_if(&mut self, name: &str, field: &Option<Entries>) -> Result<(), AllocError>
        ensures { OnOk result (members_view self.new.entries.entries ≡ with_field entries_data name.now field.now (members_view self.old.entries.entries)) }
    {
        match field {
            None => Ok(()),
            Some(entries) => {
                let values = entry_values(self.alloc, entries.as_slice())?;
                self.put(name, Value::from(values))
            }
        }
    }

    /// The compact text of the object.
    pub fn text(self) -> Result<Vec<u8>, AllocError>
        ensures text { IfOk result (λ text. text.items ≡ compact_text (object_data (members_view self.entries.entries))) }
        ensures utf8 { IfOk result (λ text. IsUtf8 text.items) }
        ensures reads_back { IfOk result (λ text. depth (object_data (members_view self.entries.entries)) ≤ max_depth → read text.items ≡ Some (object_data (members_view self.entries.entries))) }
    {
        let WrittenObject { alloc, entries } = self;
        Value::from(entries).to_vec(alloc)
    }

    /// The compact text of the object, and LF.
    pub fn line(self) -> Result<Vec<u8>, AllocError>
        ensures { IfOk result (λ line. line.items ≡ object_line (members_view self.entries.entries)) }
    {
        let mut line = self.text()?;
        line.push(b'\n')?;
        Ok(line)
    }
}

fn entry_values(alloc: Global, entries: &[(Bytes, u64)]) -> Result<Vec<Value>, AllocError>
    ensures { IfOk result (λ values. map view values.items ≡ map entry_data entries.now) }
{
    let mut values = Vec::new(alloc);
    'entries: for entry in entries {
        let value = entry_value(alloc, entry)?;
        values.push(value)?;
    }
    Ok(values)
}

fn entry_value(alloc: Global, entry: &(Bytes, u64)) -> Result<Value, AllocError>
    ensures { IfOk result (λ value. view value ≡ entry_data entry.now) }
{
    let alias = String::from_utf8_lossy(alloc, entry.0.as_slice())?;
    let mut pair = Vec::new(alloc);
    pair.push(Value::from(alias))?;
    pair.push(Value::from(entry.1))?;
    Ok(Value::from(pair))
}
