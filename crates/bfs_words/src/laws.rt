// How the plain spellings read.
ghost use Rattle.std.specs.Prelude.{◌≡◌, ◌≤◌, ◌∷◌, ◌++◌, [], ℕ, List, codes};
ghost use Rattle.bfs_super.specs.Geometry.{IsBlockSize};
ghost use Rattle.bfs_super.specs.Label.{IsLabel};
ghost use Rattle.bfs_words.specs.Numbers.{IsNumber};
ghost use Rattle.bfs_words.specs.Words.{IsPlainWord, IsLabelCommand, IsMakeCommand, IsCheckCommand, IsShellCommand, IsSoakCommand};

/// The plain spellings of the commands ask for what they say. A name that begins with a hyphen stands behind `=`.
pub fn plain_spellings()
    ensures label { (name : List ℕ) → IsPlainWord name → IsLabel name → IsLabelCommand (codes "label" ∷ name ∷ []) name }
    ensures blocks { (number : List ℕ) (n : ℕ) → IsNumber number n → n ≤ 4194304
        → IsMakeCommand (codes "mk" ∷ codes "--blocks" ∷ number ∷ []) n 1024 (codes "untitled") }
    ensures size_first { (number bytes name : List ℕ) (n size : ℕ) → IsNumber number n → n ≤ 4194304 → IsNumber bytes size → IsBlockSize size → IsLabel name
        → IsMakeCommand (codes "mk" ∷ codes "--blocks" ∷ number ∷ codes "--block-size" ∷ bytes ∷ (codes "--name=" ++ name) ∷ []) n size name }
    ensures name_first { (number bytes name : List ℕ) (n size : ℕ) → IsNumber number n → n ≤ 4194304 → IsNumber bytes size → IsBlockSize size → IsPlainWord name → IsLabel name
        → IsMakeCommand (codes "mk" ∷ codes "--name" ∷ name ∷ codes "--blocks" ∷ number ∷ (codes "--block-size=" ++ bytes) ∷ []) n size name }
    ensures equals { (number bytes name : List ℕ) (n size : ℕ) → IsNumber number n → n ≤ 4194304 → IsNumber bytes size → IsBlockSize size → IsLabel name
        → IsMakeCommand (codes "mk" ∷ (codes "--blocks=" ++ number) ∷ (codes "--block-size=" ++ bytes) ∷ (codes "--name=" ++ name) ∷ []) n size name }
    ensures check { IsCheckCommand (codes "check" ∷ []) }
    ensures shell { IsShellCommand (codes "sh" ∷ []) }
    ensures workers { IsShellCommand (codes "sh" ∷ codes "-j" ∷ codes "1" ∷ []) }
    ensures joined { IsShellCommand (codes "sh" ∷ codes "-j1" ∷ []) }
    ensures soak { (seed count : List ℕ) (n m : ℕ) → IsNumber seed n → n ≤ 18446744073709551615 → IsNumber count m → m ≤ 1048572
        → IsSoakCommand (codes "soak" ∷ seed ∷ count ∷ []) n m }
{}
