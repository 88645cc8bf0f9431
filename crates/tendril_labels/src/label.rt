//! The labels of the encodings, and the encoding of a label.
ghost use Rattle.std.specs.Prelude.{◌≡◌, ◌↔◌, IsTrue, map};
ghost use Rattle.std.specs.Char.{to_ascii_lowercase};
ghost use Rattle.tendril_labels.specs.Labels.{encoding_of, lookup, row_of, trimmed};
ghost use Rattle.tendril_labels.specs.Table.{labels as table};

use crate::encoding::Encoding;
use crate::table::LABELS;

/// A label, in lower case, and the encoding that it names.
#[derive(Clone, Copy, PartialEq, Eq, Debug)]
pub struct Label {
    pub label: &'static str,
    pub encoding: Encoding,
}

/// All labels of the standard, in the order of the names of their encodings.
///
/// ```
/// let names_koi8_r = labels().iter().filter(|row| row.encoding == Encoding::Koi8R);
/// assert_eq!(rt; names_koi8_r.count(), 5);
/// ```
pub fn labels() -> &'static [Label]
    ensures { map row_of result.now ≡ table }
{
    &LABELS
}

impl Encoding {
    /// The encoding that a label names, as the standard's "get an encoding": without white space around the label, and
    /// in any case of ASCII letters. None if no encoding has the label.
    ///
    /// Compares the label with all that the standard has, one after another: meant for one call a stream.
    ///
    /// ```
    /// let encoding = Encoding::for_label(b" Latin1\n");
    /// assert_eq!(rt; encoding, Some(Encoding::Windows1252));
    /// ```
    #[tactic(auto, unfolding(crate::specs::Labels::encoding_of))]
    pub fn for_label(label: &[u8]) -> Option<Encoding>
        ensures { result ≡ encoding_of label.now }
    {
        find(labels(), trim(label))
    }
}

// The bytes without the white space around them.
fn trim(bytes: &[u8]) -> &[u8]
    ensures { result.now ≡ trimmed bytes.now }
{
    bytes.trim_ascii()
}

// The encoding of the first row that has the label, in any case of its letters.
fn find(rows: &[Label], label: &[u8]) -> Option<Encoding>
    ensures { result ≡ lookup (map row_of rows.now) (map to_ascii_lowercase label.now) }
{
    for row in rows {
        if is_label(label, row.label) {
            return Some(row.encoding);
        }
    }
    None
}

// Whether bytes are a label, once their letters are in lower case.
fn is_label(bytes: &[u8], label: &str) -> bool
    ensures { IsTrue result ↔ (map to_ascii_lowercase bytes.now ≡ label.now) }
{
    if bytes.len() != label.len() {
        return false;
    }
    for (byte, letter) in bytes.iter().zip(label.as_bytes()) {
        if byte.to_ascii_lowercase() != *letter {
            return false;
        }
    }
    true
}
