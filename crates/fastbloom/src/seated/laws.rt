//! Laws of seated filters. These functions do nothing: their contracts are the laws.
ghost use Rattle.fastbloom.specs.SeatedLaws.{FewLaw, SureFoundLaw, InsertedLaw, KnownLaw, MetLaw, OrLaw, StaysLaw};

/// A look-up by a pass finds what the pass can be sure of, and an insert of it returns true.
pub fn sure_is_found()
    ensures found { SureFoundLaw }
    ensures inserted { InsertedLaw }
{}

/// A pass knows what it inserted, and knows it from then on, as does each pass that it meets.
pub fn inserted_stays_known()
    ensures known { KnownLaw }
    ensures stays { StaysLaw }
{}

/// What one pass knows, a look-up by another that met it finds, and an insert of it returns true.
pub fn met_is_found()
    ensures { MetLaw }
{}

/// The rule has at most as many passes as were asked for.
pub fn passes_are_few()
    ensures { FewLaw }
{}

/// The words after an `|` are what it decides of them.
pub fn steps_of_words()
    ensures { OrLaw }
{}
