// What one action has.
ghost use Rattle.std.specs.Prelude.{◌≡◌, option_map};
ghost use Rattle.log_actions.specs.Commits as rule;
ghost use Rattle.log_actions.specs.Printing as printing;
ghost use Rattle.commit_check.specs.Admission as admission;
ghost use Rattle.commit_check.specs.Lawful as lawful;
ghost use Rattle.commit_check.specs.Offers as offers;

use json_tree::Text;
use log_actions::{Action, AddFile};

pub(crate) fn is_protocol(action: &Action) -> bool
    ensures { result ≡ rule.is_protocol action.now }
{
    matches!(action, Action::Protocol(_))
}

pub(crate) fn is_meta_data(action: &Action) -> bool
    ensures { result ≡ rule.is_meta_data action.now }
{
    matches!(action, Action::MetaData(_))
}

pub(crate) fn is_info(action: &Action) -> bool
    ensures { result ≡ lawful.is_info action.now }
{
    matches!(action, Action::CommitInfo(_))
}

pub(crate) fn has_vector(action: &Action) -> bool
    ensures { result ≡ printing.has_vector action.now }
{
    match action {
        Action::Add(file) => file.vector,
        Action::Remove(file) => file.vector,
        _ => false,
    }
}

pub(crate) fn removes_data(action: &Action) -> bool
    ensures { result ≡ admission.removes_data action.now }
{
    match action {
        Action::Remove(file) => file.data_change,
        _ => false,
    }
}

pub(crate) fn path_of(action: &Action) -> Option<&Text>
    ensures { option_map (λ t. t.now) result ≡ admission.path_of action.now }
{
    match action {
        Action::Add(file) => Some(&file.path),
        Action::Remove(file) => Some(&file.path),
        Action::Cdc(file) => Some(&file.path),
        _ => None,
    }
}

pub(crate) fn added_file(action: &Action) -> Option<&AddFile>
    ensures { option_map (λ f. f.now) result ≡ offers.added_file action.now }
{
    match action {
        Action::Add(file) => Some(file),
        _ => None,
    }
}

pub(crate) fn added_path(action: &Action) -> Option<&str>
    ensures { option_map (λ s. s.now) result ≡ offers.added_path action.now }
{
    match action {
        Action::Add(file) => Some(file.path.as_str()),
        _ => None,
    }
}

pub(crate) fn removed_path(action: &Action) -> Option<&str>
    ensures { option_map (λ s. s.now) result ≡ offers.removed_path action.now }
{
    match action {
        Action::Remove(file) => Some(file.path.as_str()),
        _ => None,
    }
}

// The application whose txn the action is.
pub(crate) fn app_of(action: &Action) -> Option<&str>
    ensures { option_map (λ s. s.now) result ≡ offers.app_of action.now }
{
    match action {
        Action::Txn(txn) => Some(txn.app.as_str()),
        _ => None,
    }
}
