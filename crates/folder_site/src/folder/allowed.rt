//! The calls that the record of a site can say. No program makes another one.
ghost use Rattle.std.specs.Prelude.{◌≡◌, true, false, Some, option_map, string_bytes};
ghost use Rattle.folder_site.specs.Left.{Leaves};

use crate::folder::draft::{OpenDraft, is_draft};
use crate::folder::image::{OpenImage, is_image};
use crate::folder::left::{is_left, leave};
use kernel_files::kernel::Kernel;

/// Whether the image may be opened under this name: nothing can have changed yet, and the draft hasn't the name.
pub(super) fn may_open<K: Kernel>(is_closed: bool, draft: &Option<OpenDraft<K>>, name: &str) -> bool
    ensures fresh { result ≡ true → is_closed ≡ false }
    ensures draft { result ≡ true → option_map (λ d. string_bytes d.name) draft.now ≡ Some name.now → ⊥ }
{
    !is_closed && !is_draft(draft, name)
}

/// Whether neither the image nor the draft has this name.
pub(super) fn is_free<K: Kernel>(
    image: &Option<OpenImage<K>>,
    draft: &Option<OpenDraft<K>>,
    name: &str,
) -> bool
    ensures image { result ≡ true → option_map (λ i. string_bytes i.name) image.now ≡ Some name.now → ⊥ }
    ensures draft { result ≡ true → option_map (λ d. string_bytes d.name) draft.now ≡ Some name.now → ⊥ }
{
    !is_image(image, name) && !is_draft(draft, name)
}

/// Whether a mapfile may be settled: its name is free, and no draft that was left has it.
pub(super) fn may_settle<K: Kernel>(
    image: &Option<OpenImage<K>>,
    draft: &Option<OpenDraft<K>>,
    left: &Option<String>,
    name: &str,
) -> bool
    ensures image { result ≡ true → option_map (λ i. string_bytes i.name) image.now ≡ Some name.now → ⊥ }
    ensures draft { result ≡ true → option_map (λ d. string_bytes d.name) draft.now ≡ Some name.now → ⊥ }
    ensures left { result ≡ true → option_map (λ l. string_bytes l) left.now ≡ Some name.now → ⊥ }
{
    is_free(image, draft, name) && !is_left(left, name)
}

/// Leaves the draft that is begun. Whether another one may be begun: its name isn't the image's, and what is left is
/// known.
pub(super) fn may_begin<K: Kernel>(
    draft: Option<OpenDraft<K>>,
    left: &mut Option<String>,
    image: &Option<OpenImage<K>>,
    name: &str,
) -> bool
    ensures left { result ≡ true → Leaves (option_map (λ d. string_bytes d.name) draft)
        (option_map (λ d. d.is_firm) draft) (option_map (λ l. string_bytes l) left.old)
        (option_map (λ l. string_bytes l) left.new) }
    ensures image { result ≡ true → option_map (λ i. string_bytes i.name) image.now ≡ Some name.now → ⊥ }
{
    leave(draft, left) && !is_image(image, name)
}

/// Whether a draft may get this name: the draft is synced, and it is neither its own name nor the image's.
pub(super) fn may_publish<K: Kernel>(
    draft: &OpenDraft<K>,
    image: &Option<OpenImage<K>>,
    name: &str,
) -> bool
    ensures firm { result ≡ true → draft.now.is_firm ≡ true }
    ensures other { result ≡ true → string_bytes draft.now.name ≡ name.now → ⊥ }
    ensures image { result ≡ true → option_map (λ i. string_bytes i.name) image.now ≡ Some name.now → ⊥ }
{
    draft.is_firm && draft.name.as_str() != name && !is_image(image, name)
}
