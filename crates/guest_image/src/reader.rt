//! What is still to be read of a file, and the fields that every part of an image is made of.

ghost use Rattle.std.specs.Prelude.{◌≡◌, ◌≤◌, ◌==◌, length, IfOk};
ghost use Rattle.lwc_types.specs.Outcomes.{Answers};
ghost use Rattle.lwc_types.specs.declared.limits.TheConstants.{MOST_IMAGE_BYTES};
ghost use Rattle.guest_image.specs.Reading.{bytes_at, number_at};

use crate::fault::{ImageFault, ImageRule};
use lwc_types::ReadError;
use std::marker::Model;

/// The bytes of a file from an offset on.
#[derive(Drop)]
pub(crate) struct Reader<'a> {
    at: usize,
    bytes: &'a [u8],
}

impl<'a> Model for Reader<'a> {
    ghost use Rattle.std.specs.Prelude.{◌+◌, ◌≤◌, length};
    ghost use Rattle.lwc_types.specs.declared.limits.TheConstants.{MOST_IMAGE_BYTES};
    ghost use Rattle.guest_image.specs.Rest.{Rest};

    ghost Value = { Rest };

    ghost view = { λ r. record { at = r.at; bytes = r.bytes.now } };

    ghost invariant = { λ r. r.at + length r.bytes.now ≤ MOST_IMAGE_BYTES };
}

impl<'a> Reader<'a> {
    /// The bytes of a whole file.
    pub(crate) fn new(bytes: &'a [u8]) -> Self
        requires { length bytes.now ≤ MOST_IMAGE_BYTES }
        ensures { result ≡ record { at = 0; bytes = bytes.now } }
    {
        Reader { at: 0, bytes }
    }

    /// The offset of the next byte.
    pub(crate) fn offset(&self) -> u64
        ensures { result ≡ self.now.at }
    {
        self.at as u64
    }

    /// Whether no byte is left.
    pub(crate) fn is_empty(&self) -> bool
        ensures { result ≡ (length self.now.bytes == 0) }
    {
        self.bytes.is_empty()
    }

    /// Reads a number of bytes.
    pub(crate) fn bytes(&mut self, count: usize) -> Result<&'a [u8], ImageFault>
        ensures read { Answers (λ field. (field.now, self.new)) result (bytes_at count self.old) }
        ensures whole { IfOk result (λ field. length field.now ≡ count) }
    {
        if self.bytes.len() < count {
            return Err(ReadError::Refused {
                rule: ImageRule::Truncated,
                at: (self.at + self.bytes.len()) as u64,
            });
        }
        let (field, rest) = self.bytes.split_at(count);
        self.at += count;
        self.bytes = rest;
        Ok(field)
    }

    /// Reads a number of four bytes, the lowest first.
    pub(crate) fn number(&mut self) -> Result<u32, ImageFault>
        ensures { Answers (λ n. (n, self.new)) result (number_at self.old) }
    {
        let field = self.bytes(4)?;
        Ok(u32::from_le_bytes([field[0], field[1], field[2], field[3]]))
    }
}
