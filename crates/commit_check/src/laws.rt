// Laws of admission. Each function does nothing when it is called.
ghost use Rattle.commit_check.specs.Laws.{AdmittedIsLawful, ReadStillHolds, RetriesAreRefused};

/// A law: what is admitted the log takes. It begins with its only commitInfo, has no deletion
/// vector, and removes only paths that are live at the head, and no data where files may be added
/// alone. It does nothing when it is called.
pub fn admitted_is_lawful()
    ensures { AdmittedIsLawful }
{}

/// A law: where an offer is admitted, the files that it reads, the protocol and the metaData are the
/// same at the head as at the version that was read. It does nothing when it is called.
pub fn read_still_holds()
    ensures { ReadStillHolds }
{}

/// A law: an offer that was committed is refused when it is made again with the same version read, whatever came since, where it has
/// any action but change files and its commitInfo. It does nothing when it is called.
pub fn retries_are_refused()
    ensures { RetriesAreRefused }
{}
