// The JSON texts of listings.
ghost use Rattle.std.specs.Prelude.{◌≡◌, ◌∷◌, [], IfOk, OnOk};
ghost use Rattle.json.specs.Token as token_is;
ghost use Rattle.json_print.specs.Fields.{object_of};
ghost use Rattle.json_print.specs.Tokens.{Adds, value_tokens};
ghost use Rattle.serde_json.specs.Data.{array};
ghost use Rattle.serde_json.specs.Written.{compact_text};
ghost use Rattle.share_reply.specs.Bodies.{name_fields, name_items, share_data, share_fields};
ghost use Rattle.share_reply.specs.Listings.{page_data, schema_fields, table_fields};
ghost use Rattle.share_reply.specs.Walks.{texts, texts_of};

use crate::walk::Listed;
use json::Writer;
use json_print::{
    begin_object, end_object, new_writer, optional_text_field, printed, string_field,
};
use json_tree::Text;
use page_token::ListKind;
use std::alloc::{AllocError, Global};

// Room for a share, and for a page of a few names.
const ROOM: usize = 1024;

fn put_name(body: &mut Writer, name: &str) -> Result<(), AllocError>
    ensures { OnOk result (Adds body.old body.new (token_is.key name.now ∷ [])) }
{
    body.key(name)
}

fn begin_array(body: &mut Writer) -> Result<(), AllocError>
    ensures { OnOk result (Adds body.old body.new (token_is.begin_array ∷ [])) }
{
    body.begin_array()
}

fn end_array(body: &mut Writer) -> Result<(), AllocError>
    ensures { OnOk result (Adds body.old body.new (token_is.end_array ∷ [])) }
{
    body.end_array()
}

fn empty_object(body: &mut Writer) -> Result<(), AllocError>
    ensures { OnOk result (Adds body.old body.new (value_tokens (object_of []))) }
{
    begin_object(body)?;
    end_object(body)
}

fn share_object(body: &mut Writer, share: &str) -> Result<(), AllocError>
    ensures { OnOk result (Adds body.old body.new (value_tokens (object_of (share_fields share.now)))) }
{
    begin_object(body)?;
    string_field(body, "name", share)?;
    end_object(body)
}

fn schema_object(body: &mut Writer, schema: &str, share: &str) -> Result<(), AllocError>
    ensures { OnOk result (Adds body.old body.new (value_tokens (object_of (schema_fields schema.now share.now)))) }
{
    begin_object(body)?;
    string_field(body, "name", schema)?;
    string_field(body, "share", share)?;
    end_object(body)
}

fn table_object(body: &mut Writer, table: &str, schema: &str, share: &str) -> Result<(), AllocError>
    ensures { OnOk result (Adds body.old body.new (value_tokens (object_of (table_fields table.now schema.now share.now)))) }
{
    begin_object(body)?;
    string_field(body, "name", table)?;
    string_field(body, "schema", schema)?;
    string_field(body, "share", share)?;
    end_object(body)
}

// A name that has one text. None of all tables has.
fn one_object(
    body: &mut Writer,
    kind: ListKind,
    share: &str,
    schema: &str,
    name: &str,
) -> Result<(), AllocError>
    ensures { OnOk result (Adds body.old body.new (value_tokens (object_of (name_fields kind share.now schema.now (name.now ∷ []))))) }
{
    match kind {
        ListKind::Shares => share_object(body, name),
        ListKind::Schemas => schema_object(body, name, share),
        ListKind::Tables => table_object(body, name, schema, share),
        ListKind::AllTables => empty_object(body),
    }
}

// A name that has two. Only those of all tables have.
fn pair_object(
    body: &mut Writer,
    kind: ListKind,
    share: &str,
    schema: &str,
    name: (&str, &str),
) -> Result<(), AllocError>
    ensures { OnOk result (Adds body.old body.new (value_tokens (object_of (name_fields kind share.now schema.now (name.entry.0.now ∷ name.entry.1.now ∷ []))))) }
{
    match kind {
        ListKind::Shares | ListKind::Schemas | ListKind::Tables => {
            one_object(body, kind, share, schema, name.0)
        }
        ListKind::AllTables => table_object(body, name.1, name.0, share),
    }
}

fn name_object(
    body: &mut Writer,
    kind: ListKind,
    share: &str,
    schema: &str,
    name: &Listed,
) -> Result<(), AllocError>
    ensures { OnOk result (Adds body.old body.new (value_tokens (object_of (name_fields kind share.now schema.now (texts_of name.now))))) }
{
    match name {
        Listed::One(name) => one_object(body, kind, share, schema, name.as_str()),
        Listed::Pair(first, second) => {
            pair_object(body, kind, share, schema, (first.as_str(), second.as_str()))
        }
    }
}

fn names_array(
    body: &mut Writer,
    kind: ListKind,
    share: &str,
    schema: &str,
    names: &[Listed],
) -> Result<(), AllocError>
    ensures { OnOk result (Adds body.old body.new (value_tokens (array (name_items kind share.now schema.now (texts names.now))))) }
{
    begin_array(body)?;
    for name in names {
        name_object(body, kind, share, schema, name)?;
    }
    end_array(body)
}

fn page_object(
    body: &mut Writer,
    kind: ListKind,
    share: &str,
    schema: &str,
    names: &[Listed],
    token: &Option<Text>,
) -> Result<(), AllocError>
    ensures { OnOk result (Adds body.old body.new (value_tokens (page_data kind share.now schema.now (texts names.now) token.now))) }
{
    begin_object(body)?;
    put_name(body, "items")?;
    names_array(body, kind, share, schema, names)?;
    optional_text_field(body, "nextPageToken", token)?;
    end_object(body)
}

// The text of a page.
pub(crate) fn page_text(
    alloc: Global,
    kind: ListKind,
    share: &str,
    schema: &str,
    names: &[Listed],
    token: &Option<Text>,
) -> Result<Text, AllocError>
    ensures { IfOk result (λ t. t ≡ compact_text (page_data kind share.now schema.now (texts names.now) token.now)) }
{
    let mut body = new_writer(alloc, ROOM)?;
    page_object(&mut body, kind, share, schema, names, token)?;
    Ok(Text::of(printed(body)))
}

fn outer_object(body: &mut Writer, share: &str) -> Result<(), AllocError>
    ensures { OnOk result (Adds body.old body.new (value_tokens (share_data share.now))) }
{
    begin_object(body)?;
    put_name(body, "share")?;
    share_object(body, share)?;
    end_object(body)
}

// The text of a share.
pub(crate) fn share_text(alloc: Global, share: &str) -> Result<Text, AllocError>
    ensures { IfOk result (λ t. t ≡ compact_text (share_data share.now)) }
{
    let mut body = new_writer(alloc, ROOM)?;
    outer_object(&mut body, share)?;
    Ok(Text::of(printed(body)))
}
