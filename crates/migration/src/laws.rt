//! Laws of every file of version 1. Each function does nothing: its contract is a law over the
//! definitions that the contracts of this crate cite.

ghost use Rattle.std.specs.Prelude.{◌≡◌, ◌⊎◌, ℕ, List};
ghost use Rattle.terms_prelude.specs.Terms.{Record, Header};
ghost use Rattle.journal.specs.File.{AreBytes, IsOldVersion};
ghost use Rattle.migration.specs.declared.fault.MigrateFault.{MigrateFault};
ghost use Rattle.migration.specs.Old.{IsOldHeader, HoldsOld, RefusesOld};

/// A file of version 1 holds one list of records at most, by one header.
pub fn an_old_file_holds_one()
    ensures { (header other : Header) (records others : List Record) (file : List ℕ) →
        HoldsOld header records file → HoldsOld other others file → (header ≡ other)
        × (records ≡ others) }
{}

/// Each file of bytes holds records of version 1 by a header, or is refused by it.
pub fn an_old_file_holds_or_is_refused()
    ensures { (header : Header) (file : List ℕ) → IsOldHeader header → AreBytes file →
        ((records : List Record) × HoldsOld header records file)
        ⊎ ((fault : MigrateFault) × RefusesOld header fault file) }
{}

/// No file that holds records of version 1 by a header is refused by it.
pub fn an_old_file_that_holds_is_not_refused()
    ensures { (header : Header) (records : List Record) (fault : MigrateFault) (file : List ℕ)
        → HoldsOld header records file → RefusesOld header fault file → ⊥ }
{}

/// A file is refused for one fault at most, by one header.
pub fn an_old_file_has_one_fault()
    ensures { (header : Header) (fault other : MigrateFault) (file : List ℕ)
        → RefusesOld header fault file → RefusesOld header other file → fault ≡ other }
{}

/// Opening refuses each file that holds records of version 1, and names the version.
pub fn an_old_file_is_named()
    ensures { (header : Header) (records : List Record) (file : List ℕ) →
        HoldsOld header records file → IsOldVersion file }
{}
