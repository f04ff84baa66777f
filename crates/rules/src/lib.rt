// The ranges of the gate and the numbers of its kinds, each with its one name, which specs/ gives the definitions too; its kinds and refusals are enums.
#![tactic(auto)]

pub mod kind;
pub mod refusal;

// Models, sheets and groups are numbered from 0, below these.
pub const MODELS: u32 = 64;

pub const SHEETS: u32 = 256;

pub const GROUPS: u32 = 16;
// Ticks count from 1 up to this.
pub const TICKS: u32 = 1000000;
// The most events in a strip, and records in a book.
pub const EVENTS: usize = 4096;
// The bytes of a book's header, which is the offset of its records, and of the longest book.
pub const BOOK_HEADER: usize = 20;

pub const LONGEST_BOOK: usize = 16404;

// The most bytes in a store.
pub const STORE_BYTES: usize = 1048576;

// Kinds: strict and liberal join, leave, add, remove.
// kept: numbers beside the enum `Kind`, since public calls are promised on any number (`event::kind`, `stepping::step` and others of docs/PROMISES.md), and QUIET is no kind.
pub const SJ: u32 = 0;

pub const LJ: u32 = 1;

pub const SL: u32 = 2;

pub const LL: u32 = 3;

pub const SA: u32 = 4;

pub const LA: u32 = 5;

pub const SR: u32 = 6;

pub const LR: u32 = 7;
// A carrier's kind in a tick without an event of its own.
pub const QUIET: u32 = 8;
