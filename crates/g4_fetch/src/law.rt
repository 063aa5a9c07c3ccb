// What holds of all grammars that are fetched.
ghost use Rattle.std.specs.Prelude.{◌≡◌, ◌++◌, ◌∷◌, [], ℕ, List, Option, Result, Ok, Err};
ghost use Rattle.g4_fetch.specs.Closures.{IsEachOnce, stop_name};
ghost use Rattle.g4_fetch.specs.Fetching.{FetchesAll};
ghost use Rattle.g4_fetch.specs.Files.{Files};
ghost use Rattle.g4_fetch.specs.declared.closure.Fetched.{Fetched};
ghost use Rattle.g4_fetch.specs.declared.stop.Stop.{Stop};

/// A grammar is fetched in at most one way, or stops at one file.
pub fn one_fetched()
    ensures { (files : Files) (library : Option (List ℕ)) (name : List ℕ) (f g : List (List ℕ)) (a b : Result Fetched Stop)
        → FetchesAll files library name f a → FetchesAll files library name g b → a ≡ b }
{}

/// Nothing is fetched after the first file that is absent, too large or faulty.
pub fn ends_at_its_stop()
    ensures { (files : Files) (library : Option (List ℕ)) (name : List ℕ) (fetched : List (List ℕ)) (stop : Stop)
        → FetchesAll files library name fetched (Err stop) → (front : List (List ℕ)) × (fetched ≡ front ++ stop_name stop ∷ []) }
{}

/// Each grammar is fetched at most once.
pub fn each_once()
    ensures { (files : Files) (library : Option (List ℕ)) (name : List ℕ) (fetched : List (List ℕ)) (all : Fetched)
        → FetchesAll files library name fetched (Ok all) → IsEachOnce all.grammar }
{}
