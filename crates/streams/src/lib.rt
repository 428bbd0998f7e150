// A reader that keeps the last pulses of a stream in a ring, and after each says what its format says of them: once for every
// format, over the number of pulses kept, the filler of a fresh reader and what is said of a window.
#![tactic(auto)]

pub use format::Format;
pub use reader::{PulseReader, Stepped};
pub use ring::{place_of, unrolled};

mod format;
mod reader;
mod ring;
