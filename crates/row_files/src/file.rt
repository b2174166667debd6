// The lines of a file, and what they name.
use crate::members::member_at;
use crate::parts::push_text;
use edge_core::{Name, Stored};
use serde_json::{Map, Value};
use std::alloc::{AllocError, AllocFailed, Global};
use std::collections::BTreeMap;

/// Why a line isn't read, or a row isn't run.
#[derive(Clone, Copy)]
pub enum RowFault {
    /// The line is no JSON object.
    NotAnObject,
    /// The object neither names a text or objects, nor has a name.
    NoName,
    /// The member of that name is lacking, or of another kind.
    Member(&'static str),
    /// The row has a text that is none.
    Text,
    /// A text speaks of a name that no line above gives.
    Unnamed,
    /// The row asks for what the program doesn't know, or can't be set up.
    Unknown(&'static str),
    /// Memory is wanting.
    NoMemory,
}

impl From<AllocError> for RowFault {
    fn from(_: AllocError) -> Self {
        RowFault::NoMemory
    }
}

impl<T: Drop> From<AllocFailed<T>> for RowFault {
    fn from(_: AllocFailed<T>) -> Self {
        RowFault::NoMemory
    }
}

impl RowFault {
    // What is told of it, in three parts.
    pub(crate) fn words(self) -> [&'static str; 3] {
        match self {
            RowFault::NotAnObject => ["the line is no JSON object", "", ""],
            RowFault::NoName => ["the object has no name", "", ""],
            RowFault::Member(name) => ["the member ", name, " is lacking, or of another kind"],
            RowFault::Text => ["a text is none", "", ""],
            RowFault::Unnamed => ["a text has a name that no line above gives", "", ""],
            RowFault::Unknown(what) => ["", what, " isn't known"],
            RowFault::NoMemory => ["memory is wanting", "", ""],
        }
    }
}

/// What the lines of a file up to here name.
#[derive(Drop)]
pub struct RowFile {
    alloc: Global,
    texts: BTreeMap<String, Vec<u8>>,
    lists: BTreeMap<String, Vec<Stored>>,
}

fn copied(alloc: Global, text: &str) -> Result<String, RowFault> {
    Ok(String::from_str(alloc, text)?)
}

/// The name of an object that a text is.
pub fn name_of(alloc: Global, text: &str) -> Result<Name, RowFault> {
    match Name::of(copied(alloc, text)?) {
        Some(name) => Ok(name),
        None => Err(RowFault::Unknown("the name of an object")),
    }
}

impl RowFile {
    /// A file of which nothing is read yet.
    pub(crate) fn new(alloc: Global) -> RowFile {
        RowFile {
            alloc,
            texts: BTreeMap::new(alloc),
            lists: BTreeMap::new(alloc),
        }
    }

    /// Where what is read takes its memory.
    pub fn alloc(&self) -> Global {
        self.alloc
    }

    /// The text of that name.
    pub(crate) fn named(&self, name: &str) -> Result<&[u8], RowFault> {
        match self.texts.get(name) {
            Some(bytes) => Ok(bytes.as_slice()),
            None => Err(RowFault::Unnamed),
        }
    }

    /// The bytes of the text of that name.
    pub fn text_named(&self, name: &str) -> Result<Vec<u8>, RowFault> {
        Ok(Vec::from_slice(self.alloc, self.named(name)?)?)
    }

    /// The bytes of a TEXT.
    pub fn text(&self, value: &Value) -> Result<Vec<u8>, RowFault> {
        let mut bytes = Vec::new(self.alloc);
        push_text(self, value, &mut bytes)?;
        Ok(bytes)
    }

    fn push_members(
        &self,
        members: &Map<String, Value>,
        objects: &mut Vec<Stored>,
    ) -> Result<(), RowFault> {
        for (name, value) in members.iter() {
            let name = name_of(self.alloc, name)?;
            let bytes = self.text(value)?;
            objects.push(Stored { name, bytes })?;
        }
        Ok(())
    }

    fn push_list(&self, name: &str, objects: &mut Vec<Stored>) -> Result<(), RowFault> {
        let Some(list) = self.lists.get(name) else {
            return Err(RowFault::Unnamed);
        };
        for object in list {
            let name = object.name.copy(self.alloc)?;
            let bytes = object.bytes.clone()?;
            objects.push(Stored { name, bytes })?;
        }
        Ok(())
    }

    fn push_objects(&self, value: &Value, objects: &mut Vec<Stored>) -> Result<(), RowFault> {
        match value {
            Value::Object(members) => self.push_members(members, objects),
            Value::String(text) => match text.as_str().strip_prefix('$') {
                Some(name) => self.push_list(name, objects),
                None => Err(RowFault::Member("objects")),
            },
            _ => Err(RowFault::Member("objects")),
        }
    }

    fn push_items(&self, value: &Value, objects: &mut Vec<Stored>) -> Result<(), RowFault> {
        let Value::Array(parts) = value else {
            return self.push_objects(value, objects);
        };
        for part in parts {
            self.push_objects(part, objects)?;
        }
        Ok(())
    }

    /// Objects: those of a JSON object, each with its TEXT, those of a name, or the ones of a list of both.
    pub fn items(&self, value: &Value) -> Result<Vec<Stored>, RowFault> {
        let mut objects = Vec::new(self.alloc);
        self.push_items(value, &mut objects)?;
        Ok(objects)
    }

    fn name_objects(&mut self, name: &str, value: &Value) -> Result<(), RowFault> {
        let objects = self.items(value)?;
        self.lists.insert(copied(self.alloc, name)?, objects)?;
        Ok(())
    }

    fn name_text(&mut self, name: &str, value: &Value) -> Result<(), RowFault> {
        let bytes = self.text(value)?;
        self.texts.insert(copied(self.alloc, name)?, bytes)?;
        Ok(())
    }

    /// Takes over what a line names.
    pub(crate) fn name(&mut self, name: &str, line: &Value) -> Result<(), RowFault> {
        match (member_at(line, "be"), member_at(line, "objects")) {
            (Some(value), _) => self.name_text(name, value),
            (None, Some(value)) => self.name_objects(name, value),
            (None, None) => Err(RowFault::Member("be")),
        }
    }
}
