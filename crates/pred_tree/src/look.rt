// A file's values by column.
ghost use Rattle.std.specs.Prelude.{◌≡◌, map, option_copied};
ghost use Rattle.json_tree.specs.Lists.{pair_of};
ghost use Rattle.json_tree.specs.Pairs.{IsPairs};
ghost use Rattle.pred_tree.specs.Truth as spec;

use json_tree::{Pair, Pairs};

fn text_of(pair: &Pair) -> Option<&str>
    ensures { option_copied result ≡ pair.now.value }
{
    match &pair.value {
        Some(text) => Some(text.as_str()),
        None => None,
    }
}

// The text of the pair of that name, found by halving.
fn text_among<'a>(pairs: &'a [Pair], name: &str) -> Option<&'a str>
    requires { IsPairs (map pair_of pairs.now) }
    ensures { option_copied result ≡ spec.text_of_column name.now (map pair_of pairs.now) }
{
    match pairs.binary_search_by(|pair| pair.name.as_str().cmp(name)) {
        Ok(place) => text_of(&pairs[place]),
        Err(_) => None,
    }
}

// The text at that column, none where it is null or missing.
pub(crate) fn text_of_column<'a>(values: &'a Pairs, name: &str) -> Option<&'a str>
    ensures { option_copied result ≡ spec.text_of_column name.now values.now }
{
    text_among(values.items(), name)
}
