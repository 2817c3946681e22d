use eb_bytes::Bytes;
use shell_vars::Elements;
use sqlite_items::Items as List;

/// The variable, or the element of it, that `=` gives a value to.
#[derive(Drop)]
pub struct Place {
    /// The variable's name.
    pub name: Bytes,
    /// The index of the element, where it is one.
    pub index: Option<i64>,
}

/// The elements of a list, as a slice takes them.
#[derive(Drop)]
pub enum Source {
    /// Those of an array.
    Array(Elements),
    /// Texts in a row, as the positional parameters are.
    Arguments(List<Bytes>),
}

/// What a reference finds.
#[derive(Drop)]
pub enum Found {
    /// One value, if there is one, and where it stands.
    One(Option<Bytes>, Option<Place>),
    /// A list: whether it is one of `*`, and its elements.
    Many(bool, Source),
}
