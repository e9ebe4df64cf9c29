//! How two places are linked.

/// How a book links two places: not at all, by a way kept, or by the shortcut of that number. The number is a `u16`, so that an
/// entry is no longer than a way kept. It is no `Option` of a link: that takes four bytes more, 256 KiB in a book, and the entries of octile
/// costs alone would take 1 MiB.
#[derive(Clone, Copy)]
pub enum Entry<C> {
    Apart,
    Way(C),
    Shortcut(u16),
}
