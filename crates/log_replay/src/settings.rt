// Settings of a table that are on or off.
ghost use Rattle.std.specs.Prelude.{◌≡◌};
ghost use Rattle.log_replay.specs.Settings.{turns_on};

/// Whether that text of a setting turns it on: `true`, in any case of its letters, as Delta's writers and readers take it.
pub fn turns_on(text: &str) -> bool
    ensures { result ≡ turns_on text.now }
{
    text.as_bytes().eq_ignore_ascii_case(b"true")
}
