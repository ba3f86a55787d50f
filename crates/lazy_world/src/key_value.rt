use lwc_base::{Lent, SlotNumber};

/// A key that is no page, and a value that is put under it.
#[derive(Clone, Copy)]
pub enum KeyValue<'a> {
    Slot(SlotNumber, Lent<'a>),
    Cred(u32),
}
