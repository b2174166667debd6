// The versions of records.

// The versions of records that are read. A record of version 1 has tables alone that are shared whole.
#[derive(Clone, Copy)]
pub(crate) enum RecordVersion {
    One,
    Two,
}
