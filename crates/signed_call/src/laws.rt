// A law of what is signed. The function does nothing when it is called.
ghost use Rattle.signed_call.specs.Laws.{AreInOrder};

/// A law: the fields and the parameters that are signed of a call are in byte order of name, and each name is there once.
pub fn names_are_in_order()
    ensures { AreInOrder }
{}
