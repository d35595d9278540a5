// Shares in small arrays by value, n beside them: the two kinds of sharing, and the refresh, which closes a gadget.
#![tactic(auto)]

mod kinds;
mod refreshing;

pub use kinds::{Arithmetic, Boolean, ShareKind};
use params::Params;
pub use refreshing::{close, refresh};
use tape::Cursor;

// What a step gives where the tape suffices: its shares, and the place of the next word.
#[derive(Clone, Copy)]
pub struct Row<const N: usize> {
    pub words: [u32; N],
    pub cursor: Cursor,
}

// In an array of eight words, as all steps have them but the Boolean conversion, which appends a share.
pub type Shared = Row<{ Params::MOST }>;
