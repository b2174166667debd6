// Lists of entries in the order of their keys, found by halving. None is ever taken out of order.
ghost use Rattle.std.specs.Prelude.{◌≡◌, ◌<◌, ◌≤◌, ◌+◌, IsTrue, Ok, Err, option_map, length, vec_len, bytes_eq};
ghost use Rattle.std.specs.declared.cmp.Ordering.TheVariants.{Less};
ghost use Rattle.std.specs.List.{AllWithin};
ghost use Rattle.std.specs.Vec.{vec_capacity};
ghost use Rattle.std.specs.List.Sorted.{IsSearchInRange};
ghost use Rattle.std.specs.FinMap.Entries.{is_sorted, put as put_in};
ghost use Rattle.std.specs.Ordering.{nat_cmp};
ghost use Rattle.std.specs.Cmp.Lexicographic.{slice_cmp};
ghost use Rattle.share_catalog.specs.Sorted.{place_of, put_at, take_out, taken_at, value_in};
ghost use Rattle.share_catalog.specs.Entries.{entries, pair_texts, texts};
ghost use Rattle.share_catalog.specs.TableNames.{parts_of, texts_cmp};

use crate::name::CatalogName;
use crate::state::Pair;
use crate::table_name::TableName;
use std::cmp::Ordering;

// A key with what is held of it.
#[derive(Drop)]
pub(crate) struct Entry<K, V> {
    pub(crate) key: K,
    pub(crate) value: V,
}

// Where a name stands, or would stand.
pub(crate) fn place_of_name<V>(items: &[Entry<CatalogName, V>], name: &str) -> Result<usize, usize>
    requires { IsTrue (is_sorted (slice_cmp nat_cmp) (entries (λ k. k) items.now)) }
    ensures place { result ≡ place_of (slice_cmp nat_cmp) name.now (entries (λ k. k) items.now) }
    ensures bound { IsSearchInRange result (length items.now) }
{
    items.binary_search_by(|entry| entry.key.as_str().cmp(name))
}

// Where a digest stands, or would stand.
pub(crate) fn place_of_digest<V>(
    items: &[Entry<[u8; 32], V>],
    digest: &[u8; 32],
) -> Result<usize, usize>
    requires { IsTrue (is_sorted (slice_cmp nat_cmp) (entries (λ k. k) items.now)) }
    ensures place { result ≡ place_of (slice_cmp nat_cmp) digest.now (entries (λ k. k) items.now) }
    ensures bound { IsSearchInRange result (length items.now) }
{
    items.binary_search_by(|entry| entry.key.as_slice().cmp(digest.as_slice()))
}

// Where a table's name stands, or would stand.
pub(crate) fn place_of_table<V>(
    items: &[Entry<TableName, V>],
    table: &TableName,
) -> Result<usize, usize>
    requires { IsTrue (is_sorted texts_cmp (entries parts_of items.now)) }
    ensures place { result ≡ place_of texts_cmp (parts_of table.now) (entries parts_of items.now) }
    ensures bound { IsSearchInRange result (length items.now) }
{
    items.binary_search_by(|entry| entry.key.compare(table))
}

// The order of a pair and a recipient with a share.
fn compare_pair(pair: &Pair, recipient: &str, share: &str) -> Ordering
    ensures { result ≡ texts_cmp (pair_texts pair.now) (texts recipient.now share.now) }
{
    pair.recipient
        .as_str()
        .cmp(recipient)
        .then(pair.share.as_str().cmp(share))
}

// Where a recipient with a share stands, or would stand.
pub(crate) fn place_of_pair<V>(
    items: &[Entry<Pair, V>],
    recipient: &str,
    share: &str,
) -> Result<usize, usize>
    requires { IsTrue (is_sorted texts_cmp (entries pair_texts items.now)) }
    ensures place { result ≡ place_of texts_cmp (texts recipient.now share.now) (entries pair_texts items.now) }
    ensures bound { IsSearchInRange result (length items.now) }
{
    items.binary_search_by(|entry| compare_pair(&entry.key, recipient, share))
}

// The value at a place, none where the key isn't there.
pub(crate) fn value_at<K, V>(items: &[Entry<K, V>], place: Result<usize, usize>) -> Option<&V>
    requires { IsSearchInRange place (length items.now) }
    ensures { option_map (λ v. v.now) result ≡ value_in place items.now }
{
    match place {
        Ok(at) => Some(&items[at].value),
        Err(_) => None,
    }
}

// Puts a value at a place: a new one of a key that is there, or a new entry, for which there is room.
pub(crate) fn put<K: Drop, V: Drop>(
    items: &mut Vec<Entry<K, V>>,
    place: Result<usize, usize>,
    key: K,
    value: V,
)
    requires bound { IsSearchInRange place (length items.old.items) }
    requires room { vec_len items.old < vec_capacity items.old }
    ensures { items.new.items ≡ put_at place key value items.old.items }
{
    match place {
        Ok(at) => items[at].value = value,
        Err(at) => {
            let _ = items.insert(at, Entry { key, value });
        }
    }
}

// Takes the entry of a key out.
pub(crate) fn take<K: Drop, V: Drop>(
    items: &mut Vec<Entry<K, V>>,
    place: Result<usize, usize>,
) -> Option<V>
    requires bound { IsSearchInRange place (length items.old.items) }
    ensures items { items.new.items ≡ taken_at place items.old.items }
    ensures value { result ≡ value_in place items.old.items }
    ensures room { vec_len items.old < vec_capacity items.old → vec_len items.new < vec_capacity items.new }
{
    match place {
        Ok(at) => Some(items.remove(at).value),
        Err(_) => None,
    }
}

// Puts the value of a name, for which there is room.
pub(crate) fn put_name<V: Drop>(items: &mut Vec<Entry<CatalogName, V>>, name: CatalogName, value: V)
    requires sorted { IsTrue (is_sorted (slice_cmp nat_cmp) (entries (λ k. k) items.old.items)) }
    requires room { vec_len items.old < vec_capacity items.old }
    ensures { entries (λ k. k) items.new.items ≡ put_in (slice_cmp nat_cmp) name value (entries (λ k. k) items.old.items) }
{
    let place = place_of_name(items, name.as_str());
    put(items, place, name, value);
}

// Puts the value of a digest, for which there is room.
pub(crate) fn put_digest<V: Drop>(items: &mut Vec<Entry<[u8; 32], V>>, digest: [u8; 32], value: V)
    requires sorted { IsTrue (is_sorted (slice_cmp nat_cmp) (entries (λ k. k) items.old.items)) }
    requires room { vec_len items.old < vec_capacity items.old }
    ensures { entries (λ k. k) items.new.items ≡ put_in (slice_cmp nat_cmp) digest value (entries (λ k. k) items.old.items) }
{
    let place = place_of_digest(items, &digest);
    put(items, place, digest, value);
}

// Puts the value of a table's name, for which there is room.
pub(crate) fn put_table<V: Drop>(items: &mut Vec<Entry<TableName, V>>, table: TableName, value: V)
    requires sorted { IsTrue (is_sorted texts_cmp (entries parts_of items.old.items)) }
    requires room { vec_len items.old < vec_capacity items.old }
    ensures { entries parts_of items.new.items ≡ put_in texts_cmp (parts_of table) value (entries parts_of items.old.items) }
{
    let place = place_of_table(items, &table);
    put(items, place, table, value);
}

// Puts the value of a pair, for which there is room.
pub(crate) fn put_pair<V: Drop>(items: &mut Vec<Entry<Pair, V>>, pair: Pair, value: V)
    requires sorted { IsTrue (is_sorted texts_cmp (entries pair_texts items.old.items)) }
    requires room { vec_len items.old < vec_capacity items.old }
    ensures { entries pair_texts items.new.items ≡ put_in texts_cmp (pair_texts pair) value (entries pair_texts items.old.items) }
{
    let place = place_of_pair(items, pair.recipient.as_str(), pair.share.as_str());
    put(items, place, pair, value);
}

// Takes the value of a digest out.
pub(crate) fn take_digest<V: Drop>(items: &mut Vec<Entry<[u8; 32], V>>, digest: &[u8; 32])
    requires { IsTrue (is_sorted (slice_cmp nat_cmp) (entries (λ k. k) items.old.items)) }
    ensures items { entries (λ k. k) items.new.items ≡ take_out (slice_cmp nat_cmp) digest.now (entries (λ k. k) items.old.items) }
    ensures room { vec_len items.old < vec_capacity items.old → vec_len items.new < vec_capacity items.new }
{
    let place = place_of_digest(items, digest);
    let _ = take(items, place);
}

// How many tables stand before those of a share.
pub(crate) fn start_of_share<V>(items: &[Entry<TableName, V>], share: &str) -> usize
    requires { IsTrue (is_sorted texts_cmp (entries parts_of items.now)) }
    ensures before { AllWithin (λ x. slice_cmp nat_cmp x.key.share share.now ≡ Less) items.now 0 result }
    ensures bound { result ≤ length items.now }
{
    items.partition_point(|entry| entry.key.share.as_str() < share)
}

// How many pairs stand before those of a recipient.
pub(crate) fn start_of_recipient<V>(items: &[Entry<Pair, V>], recipient: &str) -> usize
    requires { IsTrue (is_sorted texts_cmp (entries pair_texts items.now)) }
    ensures before { AllWithin (λ x. slice_cmp nat_cmp x.key.recipient recipient.now ≡ Less) items.now 0 result }
    ensures bound { result ≤ length items.now }
{
    items.partition_point(|entry| entry.key.recipient.as_str() < recipient)
}
