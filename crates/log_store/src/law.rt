// A law of logs in a store.
ghost use Rattle.log_store.specs.Backed.{BackedLogsAreLoaded};

/// A law: where each version of a log is what the object of its name is read as, and the log is one that is kept (each version is
/// read, and the printed texts have at most 64 MiB), the log that is loaded begins with it, whatever else the store has. It does
/// nothing when it is called.
pub fn backed_logs_are_loaded()
    ensures { BackedLogsAreLoaded }
{}
