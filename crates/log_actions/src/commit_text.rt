// How long the printed text of a commit is.
ghost use Rattle.std.specs.Prelude.{◌≡◌, length};
ghost use Rattle.json_print.specs.Lengths.{capped};
ghost use Rattle.log_actions.specs.CommitTexts.{commit_text};

use crate::{Commit, line_len};

/// How many bytes the printed text of a commit has: 2^64 - 1 where they are more. It takes no memory.
pub fn text_len(commit: &Commit) -> u64
    ensures { result ≡ capped (length (commit_text commit.now)) }
{
    let mut bytes = 0u64;
    for action in commit.actions() {
        bytes = bytes.saturating_add(line_len(action)).saturating_add(1);
    }
    bytes
}
