// The printed text of a commit.
ghost use Rattle.std.specs.Prelude.{◌≡◌, ◌≤◌, ◌^◌, ◌++◌, [], ◌∷◌, Ok, IfOk, OnOk, false, length};
ghost use Rattle.std.specs.List.{list_any};
ghost use Rattle.log_actions.specs.CommitTexts.{commit_text};
ghost use Rattle.log_actions.specs.Printing.{has_vector, line_text};
ghost use Rattle.log_commit.specs.Seen.{ReadsBack};
ghost use Rattle.log_commit.specs.Texts.{commit_in};

use log_actions::{Action, Commit, line_of_action};
use std::alloc::{AllocError, Global};

// Adds the action's line and a line feed.
fn push_line(alloc: Global, bytes: &mut Vec<u8>, action: &Action) -> Result<(), AllocError>
    ensures text { OnOk result (bytes.new.items ≡ bytes.old.items ++ (line_text action.now ++ 10 ∷ [])) }
    ensures back { OnOk result (ReadsBack action.now) }
{
    let line = line_of_action(alloc, action)?;
    bytes.extend_from_slice(line.as_str().as_bytes())?;
    bytes.push(b'\n')?;
    Ok(())
}

/// The printed text of a commit: each action's line and a line feed. Deletion vectors are left out; where there is none
/// and the text has at most 16 MiB, it is read again as the commit. The error is want of memory.
pub fn bytes_of(alloc: Global, commit: &Commit) -> Result<Vec<u8>, AllocError>
    ensures text { IfOk result (λ bytes. bytes.items ≡ commit_text commit.now) }
    ensures back { IfOk result (λ bytes. list_any has_vector commit.now ≡ false → length bytes.items ≤ 2 ^ 24 → commit_in bytes.items ≡ Ok commit.now) }
{
    let mut bytes = Vec::new(alloc);
    for action in commit.actions() {
        push_line(alloc, &mut bytes, action)?;
    }
    Ok(bytes)
}
