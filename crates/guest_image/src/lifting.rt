//! Lifting an image.

ghost use Rattle.std.specs.Prelude.{◌≡◌, ℕ, List};
ghost use Rattle.guest_image.specs.Limits.{IsImage, lifted};
ghost use Rattle.guest_image.specs.Spelling.{last_of_magic, spelling};
ghost use Rattle.guest_image.specs.declared.image.Image as images;

use crate::image::{Form, Image};

/// The image in form 2, with nothing else changed (`lifted`).
pub fn lift(image: Image) -> Image
    ensures { result ≡ lifted image }
{
    Image {
        form: Form::Two,
        ..image
    }
}

/// A law: a lifted image is an image, its bytes are those of the image but for the fourth, and lifting it again
/// changes nothing.
#[tactic(auto, using(crate::proofs::Lifted::lifting))]
pub fn a_lifted_image_is_an_image()
    ensures image { (image : images.Image) → IsImage image → IsImage (lifted image) }
    ensures bytes { (image : images.Image) → spelling (lifted image) ≡ last_of_magic 0x32 (spelling image) }
    ensures again { (image : images.Image) → lifted (lifted image) ≡ lifted image }
{}
