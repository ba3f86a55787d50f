//! Images of guests: a grammar of bytes, read and written.
#![tactic(auto)]

mod fault;
mod header;
mod image;
mod laws;
mod lifting;
mod lists;
mod parts;
mod reader;
mod reading;
mod writing;

pub use fault::{ImageFault, ImageRule};
pub use image::{
    FIRST_SLOT, Form, Image, MOST_VAULT_PAGES, PageImage, SlotImage, VAULT_SLOT, Vault,
};
pub use laws::images_are_read_as_spelled;
pub use lifting::{a_lifted_image_is_an_image, lift};
pub use reading::read_image;
pub use writing::write_image;
