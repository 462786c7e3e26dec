//! The fields of a record: of one that csv's reader read, or of a line without quotes.

ghost use Rattle.std.specs.Prelude.{◌≡◌, ℕ, List, length};
ghost use Rattle.std.specs.Str.{bytes_eq};
ghost use Rattle.csv.specs.Records.{fields_of};
ghost use Rattle.trace_text.specs.Records.{field_of};

use csv::ByteRecord;

/// The fields of a record.
pub trait Fields {
    // the bytes of the fields
    ghost fields: { Self → List (List ℕ) };

    /// How many fields there are.
    fn count(&self) -> usize
        ensures { result ≡ length (fields self.now) };

    /// The field at a place, from 0; nothing if there are fewer.
    fn field(&self, place: usize) -> &[u8]
        ensures { result.now ≡ field_of (fields self.now) place };
}

impl Fields for ByteRecord {
    ghost fields = { fields_of };

    fn count(&self) -> usize
        ensures { result ≡ length (fields_of self.now) }
    {
        self.len()
    }

    fn field(&self, place: usize) -> &[u8]
        ensures { result.now ≡ field_of (fields_of self.now) place }
    {
        trace_text::records::field(self, place)
    }
}

/// Whether the field at a place is this word.
pub(crate) fn field_is<F: Fields>(fields: &F, place: usize, word: &[u8]) -> bool
    ensures { result ≡ bytes_eq (field_of (F.fields fields.now) place) word.now }
{
    fields.field(place) == word
}
