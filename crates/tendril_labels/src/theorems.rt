//! Laws of names and labels.
ghost use Rattle.tendril_labels.specs.Laws.{NamesAreLabels, RowsAreFound};

/// Does nothing; its contract states laws of labels. The name of each encoding is one of its labels. Each label of the
/// table names the encoding of its row.
pub fn laws()
    ensures names { NamesAreLabels }
    ensures rows { RowsAreFound }
{}
