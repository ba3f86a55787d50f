//! Laws of the definitions.

ghost use Rattle.std.specs.Prelude.{◌≡◌, ◌<◌, All, Ok};
ghost use Rattle.guest_image.specs.declared.image.Image.{Image};
ghost use Rattle.guest_image.specs.Limits.{IsImage};
ghost use Rattle.guest_asm.specs.Drafts.{assembled};
ghost use Rattle.guest_dis.specs.Listing.{HasBytes, listing};

/// A law: what an image is listed as is assembled to that image.
#[tactic(auto, using(crate::proofs::Images::assembled_again))]
pub fn a_listing_is_read_as_its_image()
    ensures { (image : Image) → IsImage image → HasBytes image → assembled (listing image) ≡ Ok image }
{}
