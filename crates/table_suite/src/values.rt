ghost use Rattle.std.specs.Prelude.{◌≡◌, ◌∷◌, [], IfOk};
ghost use Rattle.lwc_base.specs.Channels.{opened};

use crate::checks::check_equal;
use lwc_base::{Channels, Item, Items, Kind, Mode, PageBytes, Sequence, may_open};
use std::alloc::Global;
use std::test::Fail;

/// Channels with no file and one request, of the byte 9.
fn channels_of_one(alloc: Global) -> Result<Channels, Fail>
    ensures { IfOk result (λ io. io ≡ opened [] ((9 ∷ []) ∷ [])) }
{
    let request = Sequence::of(vec![in alloc; 9u8]?);
    let requests = Sequence::of(vec![in alloc; request]?);
    Ok(Channels::open(alloc, Sequence::of(Vec::new(alloc)), requests)?)
}

#[test]
fn what_is_written_is_read_back_in_order(rt: HostRuntime) -> Result<(), Fail> {
    let mut io = channels_of_one(rt.alloc())?;
    io.append_console(&[1, 2]);
    io.append_console(&[3]);
    io.append_reply(0, &[4]);
    let request = io.requests().get(0).as_slice();
    let seen = [io.console(), io.reply(0), request];
    let expected = [[1, 2, 3].as_slice(), [4].as_slice(), [9].as_slice()];
    check_equal(&rt, (seen, io.files().len()), (expected, 0));
    Ok(())
}

#[test]
fn uid_0_the_owner_and_all_for_what_is_public(rt: HostRuntime) -> Result<(), Fail> {
    let table = [
        (0, 9, false, true),
        (9, 9, false, true),
        (7, 9, false, false),
        (7, 9, true, true),
    ];
    for (uid, owner, public, allowed) in table {
        check_equal(&rt, may_open(uid, owner, public), allowed);
    }
    Ok(())
}

#[test]
fn a_byte_is_put_into_a_copy(rt: HostRuntime) -> Result<(), Fail> {
    let zeros = PageBytes::zero(rt.alloc())?;
    let mut page = PageBytes::copy_of(rt.alloc(), &zeros)?;
    page.put(4095, 7);
    let bytes = page.as_slice();
    let seen = [zeros.as_slice()[4095], bytes[4094], bytes[4095]];
    check_equal(&rt, seen, [0, 0, 7]);
    Ok(())
}

#[test]
fn a_vec_goes_in_and_comes_out(rt: HostRuntime) -> Result<(), Fail> {
    let sequence = Sequence::of(vec![in rt.alloc(); 5u8, 6, 7]?);
    let seen = (sequence.len(), sequence.is_empty(), sequence.as_slice());
    check_equal(&rt, seen, (3, false, [5, 6, 7].as_slice()));
    check_equal(&rt, sequence.into_vec().as_slice(), [5, 6, 7].as_slice());
    Ok(())
}

#[test]
fn items_are_kept_in_order(rt: HostRuntime) {
    let pages = Item {
        kind: Kind::Page,
        mode: Mode::Share,
        from: 1,
        to: 1024,
    };
    let cred = Item {
        kind: Kind::Cred,
        mode: Mode::Unmap,
        from: 0,
        to: 1,
    };
    let mut spec = Items::empty();
    check_equal(&rt, spec.items().len(), 0);
    spec.push(pages);
    spec.push(cred);
    check_equal(&rt, spec.items(), [pages, cred].as_slice());
}
