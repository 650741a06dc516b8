//! What the product hears of the outside and tells it: bytes that come in and go out, random bytes, moments.
//!
//! `Source` gives bytes and `Sink` takes them, `Dice` draw sixteen random bytes, and `Tick` waits for the next moment, each with
//! a count of faults that never falls. What an object still has to give, or has taken, is told to contracts where its type knows
//! it (those in memory always do, and so do dice that count), and is left open where it doesn't. `LineReader` makes lines of a
//! source's bytes, `send` writes a whole piece, and `make_identifier` makes an identifier of drawn bytes.
//!
//! ```rust
//! let mut pieces = Vec::new(alloc);
//! pieces.push(Vec::from_slice(alloc, b"one\r\ntw")?)?;
//! pieces.push(Vec::from_slice(alloc, b"o\n")?)?;
//! let mut source = MemSource::new(alloc, pieces, &[])?;
//! let mut reader = LineReader::new(alloc);
//! let first = reader.next(alloc, &mut source)?; // the full line `one`
//! let second = reader.next(alloc, &mut source)?; // the full line `two`
//! let end = reader.next(alloc, &mut source)?; // None
//! ```
//!
//! The test `lines_however_the_input_is_cut` of `edge_tests` makes these calls.
#![tactic(auto)]

mod calls;
mod count_dice;
mod dice;
mod identifier;
mod intake;
mod limits;
mod line;
mod line_reader;
mod mem_dice;
mod mem_sink;
mod mem_source;
mod mem_tick;
mod pieces;
mod read_buffer;
mod sending;
mod sink;
mod source;
mod std_sink;
mod std_source;
mod system_dice;
mod tick;

pub use count_dice::CountDice;
pub use dice::Dice;
pub use identifier::make_identifier;
pub use limits::{MOST_COUNTED, MOST_LINE_BYTES, MOST_TAKEN};
pub use line::{Line, LineFault};
pub use line_reader::LineReader;
pub use mem_dice::MemDice;
pub use mem_sink::MemSink;
pub use mem_source::MemSource;
pub use mem_tick::MemTick;
pub use sending::send;
pub use sink::Sink;
pub use source::{Failed, Source};
pub use std_sink::StdSink;
pub use std_source::StdSource;
pub use system_dice::SystemDice;
pub use tick::Tick;
