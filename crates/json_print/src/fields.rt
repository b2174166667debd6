// The fields of an object: names with values.
ghost use Rattle.std.specs.Prelude.{◌≡◌, FitsSigned, IfSome, Some, OnOk, map, option_map};
ghost use Rattle.std.specs.Int.{w64};
ghost use Rattle.json_tree.specs.Pairs.{IsPairs};
ghost use Rattle.json_tree.specs.Lists.{pair_of};
ghost use Rattle.serde_json.specs.Data.{boolean, string};
ghost use Rattle.json_print.specs.Tokens.{field_tokens, value_tokens};
ghost use Rattle.json_print.specs.Values.{count_value, pairs_value, text_or_null, texts_value, unless_empty, whole_value};

use crate::Tokens;
use json_tree::{Pair, Pairs, Text, Texts};

/// Writes a field with a text.
///
/// This and each other function here fails where memory is wanting, and then the writer is of no
/// more use.
pub fn string_field<W: Tokens>(writer: &mut W, name: &str, text: &str) -> Result<(), W::Error>
    ensures { OnOk result (W.adds writer.old writer.new (field_tokens (name.now, Some (string text.now)))) }
{
    writer.key(name)?;
    writer.string(text)
}

/// Writes a field with a text that is held as one.
pub fn text_field<W: Tokens>(writer: &mut W, name: &str, text: &Text) -> Result<(), W::Error>
    ensures { OnOk result (W.adds writer.old writer.new (field_tokens (name.now, Some (string text.now)))) }
{
    string_field(writer, name, text.as_str())
}

/// Writes a field with a text, nothing where there is none.
pub fn optional_text_field<W: Tokens>(
    writer: &mut W,
    name: &str,
    text: &Option<Text>,
) -> Result<(), W::Error>
    ensures { OnOk result (W.adds writer.old writer.new (field_tokens (name.now, option_map string text.now))) }
{
    match text {
        Some(text) => text_field(writer, name, text),
        None => Ok(()),
    }
}

/// Writes a field with a whole number from 0 on, in decimal.
pub fn count_field<W: Tokens>(writer: &mut W, name: &str, count: u64) -> Result<(), W::Error>
    ensures { OnOk result (W.adds writer.old writer.new (field_tokens (name.now, Some (count_value count)))) }
{
    writer.key(name)?;
    writer.u64(count)
}

/// Writes a field with a whole number from 0 on, nothing where there is none.
pub fn optional_count_field<W: Tokens>(
    writer: &mut W,
    name: &str,
    count: Option<u64>,
) -> Result<(), W::Error>
    ensures { OnOk result (W.adds writer.old writer.new (field_tokens (name.now, option_map count_value count))) }
{
    match count {
        Some(count) => count_field(writer, name, count),
        None => Ok(()),
    }
}

/// Writes a field with a whole number, in decimal.
pub fn whole_field<W: Tokens>(writer: &mut W, name: &str, number: i64) -> Result<(), W::Error>
    ensures written { OnOk result (W.adds writer.old writer.new (field_tokens (name.now, Some (whole_value number)))) }
    ensures bound { FitsSigned w64 number }
{
    writer.key(name)?;
    writer.i64(number)
}

/// Writes a field with a whole number, nothing where there is none.
pub fn optional_whole_field<W: Tokens>(
    writer: &mut W,
    name: &str,
    number: Option<i64>,
) -> Result<(), W::Error>
    ensures written { OnOk result (W.adds writer.old writer.new (field_tokens (name.now, option_map whole_value number))) }
    ensures bound { IfSome number (FitsSigned w64) }
{
    match number {
        Some(number) => whole_field(writer, name, number),
        None => Ok(()),
    }
}

/// Writes a field with a truth value.
pub fn flag_field<W: Tokens>(writer: &mut W, name: &str, flag: bool) -> Result<(), W::Error>
    ensures { OnOk result (W.adds writer.old writer.new (field_tokens (name.now, Some (boolean flag)))) }
{
    writer.key(name)?;
    writer.boolean(flag)
}

fn texts_array<W: Tokens>(writer: &mut W, texts: &[Text]) -> Result<(), W::Error>
    ensures { OnOk result (W.adds writer.old writer.new (value_tokens (texts_value texts.now))) }
{
    writer.begin_array()?;
    for text in texts {
        writer.string(text.as_str())?;
    }
    writer.end_array()
}

/// Writes a field with an array of texts.
pub fn texts_field<W: Tokens>(writer: &mut W, name: &str, texts: &Texts) -> Result<(), W::Error>
    ensures { OnOk result (W.adds writer.old writer.new (field_tokens (name.now, Some (texts_value texts.now)))) }
{
    writer.key(name)?;
    texts_array(writer, texts.items())
}

/// Writes a field with an array of texts, nothing where there is none.
pub fn optional_texts_field<W: Tokens>(
    writer: &mut W,
    name: &str,
    texts: &Option<Texts>,
) -> Result<(), W::Error>
    ensures { OnOk result (W.adds writer.old writer.new (field_tokens (name.now, option_map texts_value texts.now))) }
{
    match texts {
        Some(texts) => texts_field(writer, name, texts),
        None => Ok(()),
    }
}

fn text_or_null_value<W: Tokens>(writer: &mut W, text: &Option<Text>) -> Result<(), W::Error>
    ensures { OnOk result (W.adds writer.old writer.new (value_tokens (text_or_null text.now))) }
{
    match text {
        Some(text) => writer.string(text.as_str()),
        None => writer.null(),
    }
}

fn pairs_object<W: Tokens>(writer: &mut W, pairs: &[Pair]) -> Result<(), W::Error>
    ensures { OnOk result (W.adds writer.old writer.new (value_tokens (pairs_value (map pair_of pairs.now)))) }
{
    writer.begin_object()?;
    for pair in pairs {
        writer.key(pair.name.as_str())?;
        text_or_null_value(writer, &pair.value)?;
    }
    writer.end_object()
}

/// Writes a field with an object of texts and nulls.
pub fn pairs_field<W: Tokens>(writer: &mut W, name: &str, pairs: &Pairs) -> Result<(), W::Error>
    ensures written { OnOk result (W.adds writer.old writer.new (field_tokens (name.now, Some (pairs_value pairs.now)))) }
    ensures order { OnOk result (IsPairs pairs.now) }
{
    writer.key(name)?;
    pairs_object(writer, pairs.items())
}

/// Writes a field with an object of texts and nulls, nothing where there is none.
pub fn optional_pairs_field<W: Tokens>(
    writer: &mut W,
    name: &str,
    pairs: &Option<Pairs>,
) -> Result<(), W::Error>
    ensures written { OnOk result (W.adds writer.old writer.new (field_tokens (name.now, option_map pairs_value pairs.now))) }
    ensures order { OnOk result (IfSome pairs.now IsPairs) }
{
    match pairs {
        Some(pairs) => pairs_field(writer, name, pairs),
        None => Ok(()),
    }
}

/// Writes a field with an object of texts and nulls, nothing where it would be empty.
pub fn nonempty_pairs_field<W: Tokens>(
    writer: &mut W,
    name: &str,
    pairs: &Pairs,
) -> Result<(), W::Error>
    ensures written { OnOk result (W.adds writer.old writer.new (field_tokens (name.now, option_map pairs_value (unless_empty pairs.now)))) }
    ensures order { OnOk result (IsPairs pairs.now) }
{
    if pairs.items().is_empty() {
        Ok(())
    } else {
        pairs_field(writer, name, pairs)
    }
}
