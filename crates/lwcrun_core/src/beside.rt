//! What is read beside an image and a schedule: a vault, and a script.

ghost use Rattle.std.specs.Prelude.{◌≡◌, ◌≢◌, ◌≤◌, ◌<◌, ◌+◌, All, IfOk, OnOk, length};
ghost use Rattle.guest_image.specs.Limits.{IsImage, IsVault, pages_of};
ghost use Rattle.guest_image.specs.declared.image.TheConstants.{VAULT_SLOT};
ghost use Rattle.lwc_debug.specs.declared.script.TheConstants.{MOST_SCRIPT_BYTES};
ghost use Rattle.lwc_text.specs.declared.vault.TheConstants.{MOST_VAULT_BYTES};
ghost use Rattle.lwcrun_core.specs.Beside.{fitting_vault_for, script_of, vault_for};
ghost use Rattle.lwcrun_inputs.specs.Parts.{ReadsBy};
ghost use Rattle.lwcrun_inputs.specs.Reading.{Fetched, ReadsOnward, ReadsToTheEnd};
ghost use Rattle.lwcrun_inputs.specs.Views.{found};

use guest_image::{Image, Vault};
use lwc_debug::{MOST_SCRIPT_BYTES, Script, read_script};
use lwc_io::Files;
use lwc_text::{InputRule, MOST_VAULT_BYTES, read_vault};
use lwc_vault::takes_vault_slot;
use lwcrun_inputs::{Ending, Rejection, bytes_in, too_long_input};
use std::alloc::Global;

/// The vault in the file of that name, which can stand beside the image: its slot is free there, and its pages
/// fit the frames together with the image's; or the end of the call without it.
pub fn fitting_vault_in<'a, F: Files>(
    alloc: Global,
    files: &mut F,
    name: &'a str,
    image: &Image,
    frames: u32,
) -> Result<Vault, Ending<'a>>
    requires { IsImage image.now }
    ensures reads { ReadsBy (fitting_vault_for frames image.now) (F.seen files.old)
        (F.seen files.new) name.now
        (found (λ vault. vault) result) }
    ensures valid { IfOk result (IsVault (length image.now.text) (pages_of image.now.form)) }
    ensures free { OnOk result (All (λ s. s.slot ≢ VAULT_SLOT) image.now.slots) }
    ensures fits { IfOk result (λ vault. length image.now.pages + length vault.pages ≤ frames) }
    ensures same { (F.seen files.new).contents ≡ (F.seen files.old).contents }
    ensures fetches { Fetched (ReadsOnward name.now MOST_VAULT_BYTES)
        (F.seen files.old).fetches (F.seen files.new).fetches }
    ensures whole { OnOk result (Fetched (ReadsToTheEnd name.now MOST_VAULT_BYTES)
        (F.seen files.old).fetches (F.seen files.new).fetches) }
{
    let vault = vault_in(alloc, files, name, image)?;
    if takes_vault_slot(image) {
        return Err(Ending::Refused(Rejection::Input {
            rule: InputRule::SlotTaken,
            at: 0,
        }));
    }
    let pages = (image.pages.len() + vault.pages.len()) as u32;
    if frames < pages {
        return Err(Ending::Refused(Rejection::TooLarge { pages, frames }));
    }
    Ok(vault)
}

/// The vault for the image in the file of that name, or the end of the call without it.
fn vault_in<'a, F: Files>(
    alloc: Global,
    files: &mut F,
    name: &'a str,
    image: &Image,
) -> Result<Vault, Ending<'a>>
    requires { IsImage image.now }
    ensures reads { ReadsBy (vault_for image.now) (F.seen files.old) (F.seen files.new) name.now
        (found (λ vault. vault) result) }
    ensures valid { IfOk result (IsVault (length image.now.text) (pages_of image.now.form)) }
    ensures same { (F.seen files.new).contents ≡ (F.seen files.old).contents }
    ensures fetches { Fetched (ReadsOnward name.now MOST_VAULT_BYTES)
        (F.seen files.old).fetches (F.seen files.new).fetches }
    ensures whole { OnOk result (Fetched (ReadsToTheEnd name.now MOST_VAULT_BYTES)
        (F.seen files.old).fetches (F.seen files.new).fetches) }
{
    let too_long = too_long_input(MOST_VAULT_BYTES);
    let bytes = bytes_in(alloc, files, name, MOST_VAULT_BYTES, too_long)?;
    Ok(read_vault(alloc, &bytes, image.text.len() as u32, image.form.pages())?)
}

/// The script in the file of that name, or the end of the call without it.
pub fn script_in<'a, F: Files>(
    alloc: Global,
    files: &mut F,
    name: &'a str,
) -> Result<Script, Ending<'a>>
    ensures reads { ReadsBy script_of (F.seen files.old) (F.seen files.new) name.now
        (found (λ script. script) result) }
    ensures same { (F.seen files.new).contents ≡ (F.seen files.old).contents }
    ensures fetches { Fetched (ReadsOnward name.now MOST_SCRIPT_BYTES)
        (F.seen files.old).fetches (F.seen files.new).fetches }
    ensures whole { OnOk result (Fetched (ReadsToTheEnd name.now MOST_SCRIPT_BYTES)
        (F.seen files.old).fetches (F.seen files.new).fetches) }
{
    let too_long = too_long_input(MOST_SCRIPT_BYTES);
    let bytes = bytes_in(alloc, files, name, MOST_SCRIPT_BYTES, too_long)?;
    Ok(read_script(alloc, &bytes)?)
}
