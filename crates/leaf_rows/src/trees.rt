// JSON that is read as values, the fields of objects by their kinds, and objects that are printed field by field.
use crate::answer::Answer;
use crate::given::Given;
use json_print::lines::cut;
use json_print::{
    Length, Tokens, begin_object, count_field, end_object, flag_field, new_writer,
    nonempty_pairs_field, optional_count_field, optional_pairs_field, optional_text_field,
    optional_texts_field, optional_whole_field, pairs_field, printed, text_field, texts_field,
    whole_field,
};
use json_tree::{
    FieldFault, Pair, Pairs, Text, Texts, TreeFault, flag_at, member_at, pairs_at, text_at,
    texts_at, tree_of, whole_at,
};
use row_files::RowFault;
use serde_json::Value;
use std::alloc::{AllocError, Global};

fn add_tree(tree: &Result<Value, TreeFault>, out: &mut Answer) {
    match tree {
        Ok(_) => out.word("read"),
        Err(fault) => out.show(fault),
    }
}

fn tree(given: &Given, out: &mut Answer) {
    let tree = tree_of(out.alloc(), &given.bytes("text", out));
    add_tree(&tree, out);
}

// A copy of the text is told, and so of the others.
fn add_text(out: &mut Answer, text: &Result<Option<Text>, FieldFault>) {
    match text {
        Ok(Some(text)) => match &text.copy(out.alloc()) {
            Ok(copy) => out.word(copy.as_str()),
            Err(_) => out.fail(RowFault::NoMemory),
        },
        Ok(None) => out.word("none"),
        Err(fault) => out.show(fault),
    }
}

fn add_list(out: &mut Answer, texts: &Texts) {
    for text in texts.items() {
        out.word(text.as_str());
        out.word(",");
    }
}

fn add_texts(out: &mut Answer, texts: &Result<Option<Texts>, FieldFault>) {
    match texts {
        Ok(Some(texts)) => match &texts.copy(out.alloc()) {
            Ok(copy) => add_list(out, copy),
            Err(_) => out.fail(RowFault::NoMemory),
        },
        Ok(None) => out.word("none"),
        Err(fault) => out.show(fault),
    }
}

fn add_members(out: &mut Answer, pairs: &Pairs) {
    for pair in pairs.items() {
        out.word(pair.name.as_str());
        match &pair.value {
            Some(value) => {
                out.word("=");
                out.word(value.as_str());
            }
            None => out.word(" null"),
        }
        out.word(",");
    }
}

fn add_pairs(out: &mut Answer, pairs: &Result<Option<Pairs>, FieldFault>) {
    match pairs {
        Ok(Some(pairs)) => match &pairs.copy(out.alloc()) {
            Ok(copy) => add_members(out, copy),
            Err(_) => out.fail(RowFault::NoMemory),
        },
        Ok(None) => out.word("none"),
        Err(fault) => out.show(fault),
    }
}

// Adds what the field of that name is, read as one of a kind.
fn add_field(out: &mut Answer, object: &Value, kind: &str, name: &str) {
    match kind {
        "whole" => out.show(&whole_at(object, name)),
        "flag" => out.show(&flag_at(object, name)),
        "text" => add_text(out, &text_at(out.alloc(), object, name)),
        "texts" => add_texts(out, &texts_at(out.alloc(), object, name)),
        "pairs" => add_pairs(out, &pairs_at(out.alloc(), object, name)),
        _ => out.flag("", member_at(object, name).is_some()),
    }
}

fn field(given: &Given, out: &mut Answer) {
    let kind = given.word("as", out);
    let name = given.word("field", out);
    match &tree_of(out.alloc(), &given.bytes("object", out)) {
        Ok(object) => add_field(out, object, kind, name),
        Err(_) => out.lacks("object"),
    }
}

// Names as pairs, each with a text: none where they don't rise.
fn pairs_of_names(alloc: Global, names: &[Value]) -> Result<Option<Pairs>, AllocError> {
    let mut items = Vec::new(alloc);
    for name in names {
        let name = Text::of(String::from_str(alloc, name.as_str().unwrap_or(""))?);
        let value = Some(Text::of(String::from_str(alloc, "v")?));
        items.push(Pair { name, value })?;
    }
    Ok(Pairs::of(items))
}

fn pairs(given: &Given, out: &mut Answer) {
    match &pairs_of_names(out.alloc(), given.list("names", out)) {
        Ok(Some(pairs)) => out.number("", pairs.items().len() as u64),
        Ok(None) => out.word("none"),
        Err(_) => out.fail(RowFault::NoMemory),
    }
}

// The fields of an object that is to be printed.
#[derive(Drop)]
struct Fields {
    count: Option<u64>,
    flag: Option<bool>,
    list: Option<Texts>,
    pairs: Option<Pairs>,
    text: Option<Text>,
    whole: Option<i64>,
}

fn fields_of(alloc: Global, object: &Value) -> Result<Fields, FieldFault> {
    Ok(Fields {
        count: object.get("count").and_then(Value::as_u64),
        flag: flag_at(object, "flag")?,
        whole: whole_at(object, "whole")?,
        list: texts_at(alloc, object, "list")?,
        pairs: pairs_at(alloc, object, "pairs")?,
        text: text_at(alloc, object, "text")?,
    })
}

// Prints all of the fields.
fn filled<W: Tokens>(
    line: &mut W,
    list: &Texts,
    pairs: &Pairs,
    text: &Text,
    of: &Fields,
) -> Result<(), W::Error> {
    line.begin_object()?;
    count_field(line, "count", of.count.unwrap_or(0))?;
    flag_field(line, "flag", of.flag.unwrap_or(true))?;
    texts_field(line, "list", list)?;
    pairs_field(line, "pairs", pairs)?;
    text_field(line, "text", text)?;
    whole_field(line, "whole", of.whole.unwrap_or(0))?;
    line.end_object()
}

// Prints those of the fields that are there.
fn optional<W: Tokens>(line: &mut W, some: &Pairs, of: &Fields) -> Result<(), W::Error> {
    line.begin_object()?;
    optional_count_field(line, "count", of.count)?;
    optional_texts_field(line, "list", &of.list)?;
    optional_pairs_field(line, "pairs", &of.pairs)?;
    nonempty_pairs_field(line, "some", some)?;
    optional_text_field(line, "text", &of.text)?;
    optional_whole_field(line, "whole", of.whole)?;
    line.end_object()
}

// The printed text of all of the fields, and its length as it is counted.
fn add_filled(out: &mut Answer, of: &Fields) -> Result<(), AllocError> {
    let (Some(list), Some(pairs), Some(text)) = (&of.list, &of.pairs, &of.text) else {
        return Ok(());
    };
    let mut line = new_writer(out.alloc(), 0)?;
    filled(&mut line, list, pairs, text, of)?;
    out.bytes(&line.into_inner());
    let mut length = Length::new();
    let Ok(()) = filled(&mut length, list, pairs, text, of);
    out.number("\n", length.bytes);
    Ok(())
}

// The same of those that are there.
fn add_optional(out: &mut Answer, some: &Pairs, of: &Fields) -> Result<(), AllocError> {
    let mut line = new_writer(out.alloc(), 2)?;
    optional(&mut line, some, of)?;
    out.bytes(&line.into_inner());
    let mut length = Length::new();
    let Ok(()) = optional(&mut length, some, of);
    out.number("\n", length.bytes);
    Ok(())
}

fn fields_at(alloc: Global, text: &[u8]) -> Option<Fields> {
    match &tree_of(alloc, text) {
        Ok(object) => fields_of(alloc, object).ok(),
        Err(_) => None,
    }
}

fn add_fields(out: &mut Answer, fields: &Fields, all: bool) -> Result<(), AllocError> {
    if all {
        return add_filled(out, fields);
    }
    match &fields.pairs {
        Some(some) => add_optional(out, some, fields),
        None => add_optional(out, &Pairs::new(out.alloc()), fields),
    }
}

fn object(given: &Given, out: &mut Answer) {
    let all = given.word("fields", out) == "all";
    match &fields_at(out.alloc(), &given.bytes("object", out)) {
        Some(fields) => {
            let done = add_fields(out, fields, all);
            out.stored(done);
        }
        None => out.lacks("object"),
    }
}

fn empty_text(alloc: Global) -> Result<String, AllocError> {
    let mut line = new_writer(alloc, 2)?;
    begin_object(&mut line)?;
    end_object(&mut line)?;
    Ok(printed(line))
}

fn empty_object(out: &mut Answer) {
    match &empty_text(out.alloc()) {
        Ok(text) => out.word(text.as_str()),
        Err(_) => out.fail(RowFault::NoMemory),
    }
}

// The first line of a text, and what follows it.
fn cut_line(given: &Given, out: &mut Answer) {
    let text = given.bytes("text", out);
    let (line, rest) = cut(&text);
    out.bytes(line);
    match rest {
        Some(rest) => {
            out.word("\nthen ");
            out.bytes(rest);
        }
        None => out.word("\nno more"),
    }
}

/// Answers a call, where it is one of these.
pub(crate) fn answer(call: &str, given: &Given, out: &mut Answer) -> bool {
    match call {
        "tree" => tree(given, out),
        "field" => field(given, out),
        "pairs" => pairs(given, out),
        "print" => object(given, out),
        "empty object" => empty_object(out),
        "cut" => cut_line(given, out),
        _ => return false,
    }
    true
}
