//! A draft that is left unsynced: it keeps its name, and what that leads to isn't durable.
ghost use Rattle.std.specs.Prelude.{◌≡◌, ◌⊎◌, true, false, None, Some, is_some, option_map, string_bytes, IsTrue};
ghost use Rattle.folder_site.specs.Left.{Leaves};

use crate::folder::draft::OpenDraft;
use kernel_files::kernel::Kernel;

/// Leaves a draft, if one is begun. The name of one that isn't synced is kept. There is room for one name: if another
/// one is kept already, the answer is no.
pub(super) fn leave<K: Kernel>(draft: Option<OpenDraft<K>>, left: &mut Option<String>) -> bool
    ensures { result ≡ true → Leaves (option_map (λ d. string_bytes d.name) draft) (option_map (λ d. d.is_firm) draft)
        (option_map (λ l. string_bytes l) left.old) (option_map (λ l. string_bytes l) left.new) }
{
    let Some(draft) = draft else {
        return true;
    };
    if draft.is_firm {
        return true;
    }
    if let Some(name) = left {
        return name.as_str() == draft.name.as_str();
    }
    *left = Some(draft.name);
    true
}

/// Whether this is the name of a draft that was left.
pub(super) fn is_left(left: &Option<String>, name: &str) -> bool
    ensures { result ≡ false → option_map (λ l. string_bytes l) left.now ≡ Some name.now → ⊥ }
{
    match left {
        Some(left) => left.as_str() == name,
        None => false,
    }
}
