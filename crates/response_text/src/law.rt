// A law on heads. The function does nothing when it is called.
ghost use Rattle.response_text.specs.Heads.{Head, LinesEndOnce};

/// A law: before its end no line of a head has a byte below 32, so CR and LF end lines alone, and no field can make another.
pub fn lines_end_once()
    ensures { (head : Head) → LinesEndOnce head }
{}
