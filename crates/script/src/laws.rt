//! Laws of every text.
//!
//! Each function does nothing: its contract is a law over the definitions that the contract of
//! `read` cites.

ghost use Rattle.std.specs.Prelude.{ℕ, List, ◌≡◌, ◌≢◌, ◌⊎◌, ◌<◌, ◌∷◌, Some, length, map, slice_get};
ghost use Rattle.std.specs.List.{AllPairs};
ghost use Rattle.std.specs.List.Sorted.{IsPermutation};
ghost use Rattle.rand_chacha.specs.ChaCha.{ChaCha};
ghost use Rattle.disk.specs.declared.Pick.{Pick};
ghost use Rattle.terms_prelude.specs.Terms.{Size};
ghost use Rattle.script.specs.declared.Script.{Script};
ghost use Rattle.script.specs.declared.fault.ScriptFault.{ScriptFault};
ghost use Rattle.script.specs.declared.fair.Link.{Link};
ghost use Rattle.script.specs.Acts.{TossedAct, tossed_act};
ghost use Rattle.script.specs.Acts.Act.{Crash};
ghost use Rattle.script.specs.Fair.{deal, links};
ghost use Rattle.script.specs.Making.{correct_below};
ghost use Rattle.script.specs.FairLines.{HasRestart, fair_acts};
ghost use Rattle.script.specs.Steps.{ScriptStep, SaysStep};
ghost use Rattle.script.specs.Scripts.{SaysCluster, IsScript, IsFirstFault};

/// No line says two things.
pub fn no_line_says_two_things()
    ensures { (words : List (List ℕ)) (a b : ScriptStep) → SaysStep words a → SaysStep words b →
        a ≡ b }
{}

/// No text says two scripts.
pub fn no_text_says_two_scripts()
    ensures { (text : List ℕ) (a b : Script) → IsScript text a → IsScript text b → (a.size ≡ b.size)
        × (a.liars.items ≡ b.liars.items)
        × (map tossed_act a.events.items ≡ map tossed_act b.events.items) }
{}

/// No text has two first faults.
pub fn no_text_has_two_first_faults()
    ensures { (text : List ℕ) (a b : ScriptFault) → IsFirstFault text a → IsFirstFault text b →
        a ≡ b }
{}

/// No text says a script and has a fault.
pub fn no_script_has_a_fault()
    ensures { (text : List ℕ) (script : Script) (fault : ScriptFault) → IsScript text script →
        IsFirstFault text fault → ⊥ }
{}

/// Each text says a cluster and its events, or has a first fault.
pub fn each_text_says_something_or_has_a_fault()
    ensures { (text : List ℕ) →
        ((size : Size) × (liars : List ℕ) × (events : List TossedAct)
        × SaysCluster text size liars events) ⊎ ((fault : ScriptFault) × IsFirstFault text fault) }
{}

/// Each crash of a line `fair K` is followed by that member's restart, at most 50 events later and
/// before the line ends.
pub fn each_crash_of_fair_has_its_restart()
    ensures { (size : Size) (correct : List ℕ) (k place member : ℕ) (pick : Pick) (stream : ChaCha)
        → slice_get (fair_acts size correct k stream) place ≡ Some (Crash member pick)
        → HasRestart (fair_acts size correct k stream) place member }
{}

/// No link stands twice in a new deck.
pub fn a_new_deck_has_each_link_once()
    ensures { (n : ℕ) (liars : List ℕ) → AllPairs (λ a b. a ≢ b) (links (correct_below n liars)) }
{}

/// A deal takes one link out of the deck: that link and those that are left are the deck.
pub fn a_deal_takes_one_link_out()
    ensures { (deck : List Link) (stream : ChaCha) → 0 < length deck
        → IsPermutation deck ((deal deck stream).0.0 ∷ (deal deck stream).0.1) }
{}
