// A book after one Begin on the catalogue.
use share_book::Book;
use std::alloc::Global;

// How many logs are kept, none where there is one at `t`.
fn locations(alloc: Global, book: &Book) -> Option<usize> {
    if book.has_log("t") || book.log_of("t").is_some() {
        return None;
    }
    match book.locations(alloc) {
        Ok(locations) => Some(locations.len()),
        Err(_) => None,
    }
}

fn told(alloc: Global, book: &Book, begun: bool) -> Option<(bool, u64, u64, usize)> {
    let locations = locations(alloc, book)?;
    Some((begun, book.len(), book.edit_count(), locations))
}

// Whether it is begun, how many entries and edits it has, and how many logs.
fn begun(alloc: Global) -> Option<(bool, u64, u64, usize)> {
    let Ok(mut book) = Book::new(alloc) else {
        return None;
    };
    if book.reserve_catalog(alloc).is_err() {
        return None;
    }
    let begun = book.begin(3, 0);
    told(alloc, &book, begun)
}

#[test]
fn begins_on_the_catalogue(rt: HostRuntime) {
    let alloc = rt.alloc();
    assert!(rt; matches!(begun(alloc), Some((true, 1, 0, 0))));
}
