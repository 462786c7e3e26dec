//! Where csv's default reader is in a text, byte by byte.

ghost use Rattle.std.specs.Prelude.{◌≡◌};
ghost use Rattle.csv.specs.Machine.{step};
ghost use Rattle.csv.specs.Reading.{default_config};
ghost use Rattle.trace_text.specs.CsvPlaces.{state_of};

/// Where csv's reader is in a text.
#[derive(Clone, Copy)]
pub enum Place {
    /// Before a record: at the start of a text, or after a line.
    StartRecord,
    StartField,
    InField,
    InQuotes,
    /// After a quote within quotes: it ends them, unless another quote follows.
    AfterQuote,
    /// After a carriage return that ended a record.
    AfterReturn,
}

impl Place {
    /// Where the reader is after one more byte.
    pub fn after(self, byte: u8) -> Place
        ensures { state_of result ≡ (step default_config (state_of self) byte).0 }
    {
        match (self, byte) {
            (Place::StartRecord | Place::AfterReturn, b'\r' | b'\n') => Place::StartRecord,
            (Place::StartRecord | Place::AfterReturn | Place::StartField, b'"') => Place::InQuotes,
            (Place::InQuotes, b'"') => Place::AfterQuote,
            (Place::InQuotes, _) => Place::InQuotes,
            (Place::AfterQuote, b'"') => Place::InQuotes,
            (_, b',') => Place::StartField,
            (_, b'\r') => Place::AfterReturn,
            (_, b'\n') => Place::StartRecord,
            _ => Place::InField,
        }
    }
}
