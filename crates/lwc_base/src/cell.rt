use lwc_types::Name;

/// What a context has under a key: a value of its own, or the name of the group that has the value.
#[derive(Drop)]
pub enum Cell<T> {
    Own(T),
    Common(Name),
}
