//! The replay of a run beside a vault.

ghost use Rattle.std.specs.Prelude.{◌≡◌, ◌≢◌, ◌<◌, ◌≤◌, ◌+◌, [], false, All, IfErr, IfOk, None, Some, length};
ghost use Rattle.guest_image.specs.Limits.{IsImage};
ghost use Rattle.guest_image.specs.declared.image.TheConstants.{VAULT_SLOT};
ghost use Rattle.kernel_core.specs.Kernel as kernel;
ghost use Rattle.kernel_core.specs.Kernel.{CanKeep};
ghost use Rattle.kernel_core.specs.Settings.{IsSettings};
ghost use Rattle.lwc_types.specs.declared.limits.TheConstants.{MOST_STEPS};
ghost use Rattle.lwc_text.specs.Report.{report_of_schedule};
ghost use Rattle.lwc_vault.specs.Secrets.{KeepsSecret};
ghost use Rattle.lwc_vault.specs.Slots as spec;

use guest_image::{Image, VAULT_SLOT, Vault};
use kernel_core::{Kernel, OpenFault, Settings};
use lwc_text::{Schedule, report_of_schedule};
use std::alloc::Global;
use world_face::World;

/// The report of a schedule's steps beside a vault: what is printed of a run from a start with it. It keeps the
/// vault's secret.
///
/// # Errors
///
/// `ImageTooLarge` exactly where the image and the vault together have more pages than there are frames,
/// which is tested before memory is taken, and has that sum; or `OutOfMemory`.
pub fn vault_replay<W: World>(
    alloc: Global,
    image: &Image,
    vault: &Vault,
    schedule: &Schedule,
    settings: &Settings,
) -> Result<Vec<u8>, OpenFault>
    requires image { IsImage image.now }
    requires vault { CanKeep image.now settings.now.job vault.now }
    requires settings { IsSettings settings.now }
    requires threads { All (λ t. t < length image.now.entries) schedule.now }
    requires short { length schedule.now ≤ MOST_STEPS }
    ensures text { IfOk result (λ text. text.items ≡ report_of_schedule (record {
      image = image.now;
      vault = Some vault.now;
      requests = [];
      settings = settings.now;
    }) schedule.now) }
    ensures too_large { settings.now.frames < length image.now.pages + length vault.now.pages →
        result ≡ Err (OpenFault.ImageTooLarge (length image.now.pages + length vault.now.pages)
        settings.now.frames) }
    ensures fits { length image.now.pages + length vault.now.pages ≤ settings.now.frames →
        IfErr result (λ fault. fault ≡ OpenFault.OutOfMemory) }
    ensures secret { IfOk result (λ text. KeepsSecret (record {
      image = image.now;
      vault = None;
      requests = [];
      settings = settings.now;
    }) vault.now schedule.now) }
{
    let kernel = opened::<W>(alloc, image, vault, schedule, settings)?;
    match report_of_schedule(alloc, kernel, schedule) {
        Ok(text) => Ok(text),
        Err(_) => Err(OpenFault::OutOfMemory),
    }
}

/// A kernel at the start of a run beside the vault, with room for just the steps of the schedule.
fn opened<W: World>(
    alloc: Global,
    image: &Image,
    vault: &Vault,
    schedule: &Schedule,
    settings: &Settings,
) -> Result<Kernel<W>, OpenFault>
    requires image { IsImage image.now }
    requires vault { CanKeep image.now settings.now.job vault.now }
    requires settings { IsSettings settings.now }
    requires short { length schedule.now ≤ MOST_STEPS }
    ensures opened { IfOk result (λ k. k ≡ kernel.opened (record {
      image = image.now;
      vault = Some vault.now;
      requests = [];
      settings = settings.now;
    }) (length schedule.now)) }
    ensures too_large { settings.now.frames < length image.now.pages + length vault.now.pages →
        result ≡ Err (OpenFault.ImageTooLarge (length image.now.pages + length vault.now.pages)
        settings.now.frames) }
    ensures fits { length image.now.pages + length vault.now.pages ≤ settings.now.frames →
        IfErr result (λ fault. fault ≡ OpenFault.OutOfMemory) }
{
    Kernel::open_with_vault(alloc, image, vault, schedule.len() as u32, settings)
}

/// Whether a slot of the image is the vault's, so that no vault can stand beside it.
pub fn takes_vault_slot(image: &Image) -> bool
    ensures taken { result ≡ spec.takes_vault_slot image.now }
    ensures free { result ≡ false → All (λ s. s.slot ≢ VAULT_SLOT) image.now.slots }
{
    image
        .slots
        .as_slice()
        .iter()
        .any(|slot| slot.slot == VAULT_SLOT)
}
