//! Lists, their iterators and cursors, and the kind of their nodes.

pub use cordyceps_base::list::Links;
pub use cordyceps_list::cursor::Cursor;
pub use cordyceps_list::cursor_mut::CursorMut;
pub use cordyceps_list::filter::DrainFilter;
pub use cordyceps_list::iter::{IntoIter, Iter};
pub use cordyceps_list::iter_mut::IterMut;
pub use cordyceps_list::list::List;

/// Cursors of lists.
pub mod cursor {
    pub use cordyceps_list::cursor::Cursor;
    pub use cordyceps_list::cursor_mut::CursorMut;
}
