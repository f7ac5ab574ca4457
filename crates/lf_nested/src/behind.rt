//! What stands behind a proof item: the proofs of the goals that the item leaves.

use lf_syntax::Item;

/// What stands behind a proof item.
#[derive(Clone, Copy)]
pub enum Behind<'a> {
    /// The goals that the item leaves are left.
    Nothing,
    /// These items of a block that begins at `start`, behind the item at `at`.
    Items {
        at: usize,
        start: usize,
        items: &'a [Item],
    },
}
