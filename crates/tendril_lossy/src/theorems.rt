//! Laws of lossy decoding.
ghost use Rattle.tendril_lossy.specs.Laws.{ItemsAreLossy, GoesOn, Resumes};

/// Does nothing; its contract states laws of lossy decoding. The items of bytes are exactly those of Unicode's practice
/// of maximal subparts. A stream may be cut anywhere. After the bytes that are kept at a cut are completed, decoding
/// continues with the remaining input.
pub fn laws()
    ensures items { ItemsAreLossy }
    ensures goes_on { GoesOn }
    ensures resumes { Resumes }
{}
