// Laws of puts on one bucket. The function does nothing when it is called.
ghost use Rattle.bucket_store.specs.Laws.{PutsTellTheTruth};

/// A law of puts on one bucket, of any number of stores and whatever others put, for every list of their steps, where requests come late,
/// twice or never and answers are lost: a put that answers `Stored` made the object, and nothing had the name when it began; one that answers
/// `Exists` did not make the object that has the name.
pub fn puts_tell_the_truth()
    ensures { PutsTellTheTruth }
{}
