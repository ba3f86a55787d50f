ghost use Rattle.std.specs.Prelude.{◌≡◌, ◌<◌, ◌≤◌, ◌+◌, ◌++◌, [], IfOk, length, replicate, slice_set};
ghost use Rattle.lwc_base.specs.Channels.{AreSmall, bytes_in};
ghost use Rattle.lwc_base.specs.Channels as spec;
ghost use Rattle.lwc_types.specs.declared.limits.TheConstants.{MOST_CONSOLE_BYTES, MOST_REPLY_BYTES};

use crate::replies::Replies;
use lwc_types::{FileImage, MOST_CONSOLE_BYTES, OutOfMemory, Sequence};
use std::alloc::Global;
use std::marker::Model;

/// Requests, each a list of bytes.
pub type Requests = Sequence<Sequence<u8>>;

/// What calls of guests read and write beside the world: the files of the image, the requests, the console,
/// and a reply for each request. The memory for all of it is taken at opening.
#[derive(Drop)]
pub struct Channels {
    files: Sequence<FileImage>,
    requests: Requests,
    console: Vec<u8>,
    replies: Replies,
}

impl Model for Channels {
    ghost use Rattle.std.specs.Prelude.{◌≡◌, ◌≤◌, length, vec_len, vec_capacity};
    ghost use Rattle.lwc_base.specs.Channels.{AreSmall};
    ghost use Rattle.lwc_base.specs.Channels as spec;
    ghost use Rattle.lwc_types.specs.declared.limits.TheConstants.{MOST_CONSOLE_BYTES};

    ghost Value = { spec.Channels };

    ghost view = { λ io. record {
      files = io.files;
      requests = io.requests;
      console = io.console.items;
      replies = io.replies;
    } };

    ghost invariant = { λ io. record {
      small : AreSmall io.files io.requests;
      console : vec_len io.console ≤ MOST_CONSOLE_BYTES;
      room : MOST_CONSOLE_BYTES ≤ vec_capacity io.console;
      replies : length io.replies ≡ length io.requests;
    } };
}

impl Channels {
    /// Channels to which nothing has been written. The only error is out of memory, and no later call takes
    /// memory.
    pub fn open(
        alloc: Global,
        files: Sequence<FileImage>,
        requests: Requests,
    ) -> Result<Channels, OutOfMemory>
        requires { AreSmall files requests }
        ensures { IfOk result (λ io. io ≡ spec.opened files requests) }
    {
        let console = Vec::with_capacity(alloc, MOST_CONSOLE_BYTES)?;
        let replies = Replies::open(alloc, requests.len() as u32)?;
        Ok(Channels {
            files,
            requests,
            console,
            replies,
        })
    }

    /// The files of the image.
    pub fn files(&self) -> &[FileImage]
        ensures files { result.now ≡ self.now.files }
        ensures small { AreSmall self.now.files self.now.requests }
    {
        self.files.as_slice()
    }

    /// The requests.
    pub fn requests(&self) -> &Requests
        ensures requests { result.now ≡ self.now.requests }
        ensures small { AreSmall self.now.files self.now.requests }
    {
        &self.requests
    }

    /// The bytes that have been written to the console.
    pub fn console(&self) -> &[u8]
        ensures bytes { result.now ≡ self.now.console }
        ensures few { length self.now.console ≤ MOST_CONSOLE_BYTES }
    {
        self.console.as_slice()
    }

    /// The bytes that have been written to the reply of a request.
    pub fn reply(&self, request: u16) -> &[u8]
        requires { request < length self.now.requests }
        ensures bytes { result.now ≡ bytes_in self.now.replies request }
        ensures few { length (bytes_in self.now.replies request) ≤ MOST_REPLY_BYTES }
    {
        self.replies.bytes(request as usize)
    }

    /// Appends bytes to the console, which has room for them.
    pub fn append_console(&mut self, piece: &[u8])
        requires { length self.old.console + length piece.now ≤ MOST_CONSOLE_BYTES }
        ensures { self.new ≡ record self.old { console = self.old.console ++ piece.now } }
    {
        let _ = self.console.extend_from_slice(piece);
    }

    /// Appends bytes to the reply of a request, which has room for them.
    pub fn append_reply(&mut self, request: u16, piece: &[u8])
        requires there { request < length self.old.requests }
        requires room { length (bytes_in self.old.replies request) + length piece.now ≤ MOST_REPLY_BYTES }
        ensures { self.new ≡ record self.old {
          replies = slice_set self.old.replies request (bytes_in self.old.replies request ++ piece.now);
        } }
    {
        self.replies.append(request as usize, piece);
    }
}

/// Whether a uid may open a file of this owner, which others may open too where it is public.
pub fn may_open(uid: u32, owner: u32, public: bool) -> bool
    ensures { result ≡ spec.may_open uid owner public }
{
    uid == 0 || uid == owner || public
}

/// Whether a uid may become the one that is asked for.
pub fn may_set(uid: u32, asked: u32) -> bool
    ensures { result ≡ spec.may_set uid asked }
{
    uid == 0 || uid == asked
}
