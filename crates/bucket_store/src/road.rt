// How a bucket is reached.

/// The link to a bucket, and the clock that tells when it is asked.
#[derive(Drop)]
pub(crate) struct Road<V, C> {
    pub(crate) way: V,
    pub(crate) clock: C,
}
