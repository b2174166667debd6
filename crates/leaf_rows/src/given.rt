// What a row's call is given.
use crate::answer::Answer;
use edge_core::Name;
use json_tree::{Edition, Text, Version};
use row_files::{RowFault, RowFile, list_at, number_at, text_at};
use serde_json::Value;
use share_catalog::CatalogName;

/// The members that a call is given, each by its name. One that is lacking, or of another kind, is noted in the answer, and read as
/// nothing: so what makes an answer has one way to its end.
#[derive(Clone, Copy)]
pub(crate) struct Given<'a> {
    pub(crate) file: &'a RowFile,
    pub(crate) with: &'a Value,
}

impl<'a> Given<'a> {
    /// What another object gives.
    pub(crate) fn of(&self, with: &'a Value) -> Given<'a> {
        Given {
            file: self.file,
            with,
        }
    }

    /// Whether there is a member of that name.
    pub(crate) fn has(&self, name: &str) -> bool {
        self.with.get(name).is_some()
    }

    /// The bytes of the TEXT of that name.
    pub(crate) fn bytes(&self, name: &'static str, out: &mut Answer) -> Vec<u8> {
        out.made(text_at(self.file, self.with, name))
    }

    /// The bytes of the TEXT of that name, none where it is lacking.
    pub(crate) fn bytes_or_empty(&self, name: &'static str, out: &mut Answer) -> Vec<u8> {
        if self.has(name) {
            self.bytes(name, out)
        } else {
            Vec::new(out.alloc())
        }
    }

    /// The characters of a TEXT.
    pub(crate) fn text_of(&self, value: &Value, out: &mut Answer) -> String {
        match String::from_utf8(out.made(self.file.text(value))) {
            Ok(text) => text,
            Err(_) => {
                out.fail(RowFault::Text);
                String::new(out.alloc())
            }
        }
    }

    /// The characters of the TEXT of that name.
    pub(crate) fn text(&self, name: &'static str, out: &mut Answer) -> String {
        match self.with.get(name) {
            Some(value) => self.text_of(value, out),
            None => {
                out.lacks(name);
                String::new(out.alloc())
            }
        }
    }

    /// The same, for a call that takes a `Text`.
    pub(crate) fn json_text(&self, name: &'static str, out: &mut Answer) -> Text {
        Text::of(self.text(name, out))
    }

    /// The name of an object that the text of that name is.
    pub(crate) fn object_name(&self, name: &'static str, out: &mut Answer) -> Option<Name> {
        let named = Name::of(self.text(name, out));
        if named.is_none() {
            out.lacks(name);
        }
        named
    }

    /// The catalogue's name that the text of that name is.
    pub(crate) fn catalog_name(&self, name: &'static str, out: &mut Answer) -> Option<CatalogName> {
        let named = CatalogName::of(self.text(name, out));
        if named.is_none() {
            out.lacks(name);
        }
        named
    }

    /// The word of that name.
    pub(crate) fn word(&self, name: &'static str, out: &mut Answer) -> &'a str {
        match self.with.get(name).and_then(Value::as_str) {
            Some(word) => word,
            None => {
                out.lacks(name);
                ""
            }
        }
    }

    /// The number of that name.
    pub(crate) fn number(&self, name: &'static str, out: &mut Answer) -> u64 {
        match number_at(self.with, name) {
            Ok(Some(number)) => number,
            _ => {
                out.lacks(name);
                0
            }
        }
    }

    /// The truth value of that name, false where it is lacking.
    pub(crate) fn flag(&self, name: &'static str, out: &mut Answer) -> bool {
        match row_files::flag_at(self.with, name) {
            Ok(flag) => flag,
            Err(fault) => {
                out.fail(fault);
                false
            }
        }
    }

    /// The values of the list of that name, none where it is lacking.
    pub(crate) fn list(&self, name: &'static str, out: &mut Answer) -> &'a [Value] {
        match list_at(self.with, name) {
            Ok(values) => values,
            Err(fault) => {
                out.fail(fault);
                &[]
            }
        }
    }

    /// The version that the number of that name is.
    pub(crate) fn version(&self, name: &'static str, out: &mut Answer) -> Version {
        match Version::of(self.number(name, out)) {
            Some(version) => version,
            None => {
                out.lacks(name);
                Version::of_small(0)
            }
        }
    }

    /// The edition that the number of that name is.
    pub(crate) fn edition(&self, name: &'static str, out: &mut Answer) -> Edition {
        match Edition::of(self.number(name, out)) {
            Some(edition) => edition,
            None => {
                out.lacks(name);
                Edition::never()
            }
        }
    }
}
