// Which values of actions are the same.
ghost use Rattle.std.specs.Prelude.{◌≡◌, ◌↔◌, IsTrue, bytes_eq, map};
ghost use Rattle.std.specs.Option.{option_eq};
ghost use Rattle.std.specs.Ordering.{int_eq};
ghost use Rattle.json_tree.specs.Lists.{pair_of};
ghost use Rattle.mirror_table.specs.Same as spec;

use json_tree::{Pair, Pairs, Text, Texts};
use log_actions::{AddFile, Format, MetaData, Protocol};

fn same_text(a: &Text, b: &Text) -> bool
    ensures { result ≡ bytes_eq a.now b.now }
{
    a.as_str() == b.as_str()
}

fn same_text_or_none(a: &Option<Text>, b: &Option<Text>) -> bool
    ensures { result ≡ option_eq bytes_eq a.now b.now }
{
    match (a, b) {
        (Some(a), Some(b)) => same_text(a, b),
        (None, None) => true,
        _ => false,
    }
}

fn same_time_or_none(a: Option<i64>, b: Option<i64>) -> bool
    ensures { result ≡ option_eq int_eq a b }
{
    match (a, b) {
        (Some(a), Some(b)) => a == b,
        (None, None) => true,
        _ => false,
    }
}

fn same_text_list(a: &[Text], b: &[Text]) -> bool
    ensures { result ≡ spec.same_texts a.now b.now }
{
    if a.len() != b.len() {
        return false;
    }
    for i in 0..a.len() {
        if !same_text(&a[i], &b[i]) {
            return false;
        }
    }
    true
}

fn same_texts_or_none(a: &Option<Texts>, b: &Option<Texts>) -> bool
    ensures { result ≡ option_eq spec.same_texts a.now b.now }
{
    match (a, b) {
        (Some(a), Some(b)) => same_text_list(a.items(), b.items()),
        (None, None) => true,
        _ => false,
    }
}

fn same_pair(a: &Pair, b: &Pair) -> bool
    ensures { result ≡ spec.same_pair (pair_of a.now) (pair_of b.now) }
{
    same_text(&a.name, &b.name) && same_text_or_none(&a.value, &b.value)
}

fn same_pair_list(a: &[Pair], b: &[Pair]) -> bool
    ensures { result ≡ spec.same_pairs (map pair_of a.now) (map pair_of b.now) }
{
    if a.len() != b.len() {
        return false;
    }
    for i in 0..a.len() {
        if !same_pair(&a[i], &b[i]) {
            return false;
        }
    }
    true
}

fn same_pairs(a: &Pairs, b: &Pairs) -> bool
    ensures { result ≡ spec.same_pairs a.now b.now }
{
    same_pair_list(a.items(), b.items())
}

fn same_pairs_or_none(a: &Option<Pairs>, b: &Option<Pairs>) -> bool
    ensures { result ≡ option_eq spec.same_pairs a.now b.now }
{
    match (a, b) {
        (Some(a), Some(b)) => same_pairs(a, b),
        (None, None) => true,
        _ => false,
    }
}

/// Whether two protocols are the same.
pub(crate) fn same_protocol(a: &Protocol, b: &Protocol) -> bool
    ensures { result ≡ spec.same_protocol a.now b.now }
{
    a.min_reader.get() == b.min_reader.get()
        && a.min_writer.get() == b.min_writer.get()
        && same_texts_or_none(&a.reader_features, &b.reader_features)
        && same_texts_or_none(&a.writer_features, &b.writer_features)
}

fn same_format(a: &Format, b: &Format) -> bool
    ensures { result ≡ spec.same_format a.now b.now }
{
    same_text(&a.provider, &b.provider) && same_pairs(&a.options, &b.options)
}

/// Whether two metaData are the same.
pub(crate) fn same_meta(a: &MetaData, b: &MetaData) -> bool
    ensures { result ≡ spec.same_meta a.now b.now }
{
    same_text(&a.id, &b.id)
        && same_text_or_none(&a.name, &b.name)
        && same_text_or_none(&a.description, &b.description)
        && same_format(&a.format, &b.format)
        && same_text(&a.schema, &b.schema)
        && same_text_list(a.columns.items(), b.columns.items())
        && same_pairs(&a.configuration, &b.configuration)
        && same_time_or_none(a.created, b.created)
}

/// Whether two files are the same.
pub(crate) fn same_file(a: &AddFile, b: &AddFile) -> bool
    ensures { result ≡ spec.same_file a.now b.now }
{
    same_text(&a.path, &b.path)
        && same_pairs(&a.values, &b.values)
        && a.size.get() == b.size.get()
        && a.modified == b.modified
        && a.data_change == b.data_change
        && same_text_or_none(&a.stats, &b.stats)
        && same_pairs_or_none(&a.tags, &b.tags)
        && a.vector == b.vector
}
