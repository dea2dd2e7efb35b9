//! Laws about the definitions alone: functions without effect, whose contract is the law.
ghost use Rattle.std.specs.Prelude.{◌≡◌, ℕ, List, [], ◌∷◌, codes};
ghost use Rattle.mvt_words.specs.Words.{IsPlainLine, faults_in, files_in, task_in};

use mvt_tasks::Task;

/// A line without a command asks for a check.
pub fn bare_lines_check()
    ensures nothing { task_in [] ≡ Task.Check }
    ensures alone { (name : List ℕ) → task_in (name ∷ []) ≡ Task.Check }
{}

/// The lines ask for what they name, whatever the program's own name is.
pub fn lines_ask()
    ensures fields { (name : List ℕ) → task_in (name ∷ codes "fields" ∷ []) ≡ Task.Fields }
    ensures show { (name : List ℕ) → task_in (name ∷ codes "show" ∷ []) ≡ Task.Show }
    ensures draw { (name : List ℕ) → task_in (name ∷ codes "draw" ∷ []) ≡ Task.Draw }
    ensures check { (name : List ℕ) → task_in (name ∷ codes "check" ∷ []) ≡ Task.Check }
    ensures explain { (name : List ℕ) → task_in (name ∷ codes "explain" ∷ []) ≡ Task.Explain }
    ensures lint { (name : List ℕ) → task_in (name ∷ codes "lint" ∷ []) ≡ Task.Lint }
    ensures rewrite { (name : List ℕ) → task_in (name ∷ codes "rewrite" ∷ []) ≡ Task.Rewrite }
    ensures mend { (name : List ℕ) → task_in (name ∷ codes "mend" ∷ []) ≡ Task.Mend }
    ensures extract { (name : List ℕ)
        → task_in (name ∷ codes "extract" ∷ codes "b" ∷ codes "a" ∷ [])
        ≡ Task.Extract (codes "b" ∷ codes "a" ∷ []) }
{}

/// These lines ask for the version, whatever the program's own name is.
pub fn lines_ask_version()
    ensures version { (name : List ℕ) → task_in (name ∷ codes "--version" ∷ []) ≡ Task.Version }
    ensures short { (name : List ℕ) → task_in (name ∷ codes "-V" ∷ []) ≡ Task.Version }
    ensures before { (name : List ℕ)
        → task_in (name ∷ codes "--version" ∷ codes "check" ∷ codes "b" ∷ []) ≡ Task.Version }
{}

/// The lines name these files, whatever the program's own name is.
pub fn lines_name_files()
    ensures no_files { (name : List ℕ) → files_in (name ∷ codes "check" ∷ []) ≡ [] }
    ensures files { (name : List ℕ) → files_in (name ∷ codes "check" ∷ codes "b" ∷ codes "a" ∷ [])
        ≡ codes "b" ∷ codes "a" ∷ [] }
    ensures files_explained { (name : List ℕ)
        → files_in (name ∷ codes "explain" ∷ codes "b" ∷ codes "a" ∷ [])
        ≡ codes "b" ∷ codes "a" ∷ [] }
    ensures files_linted { (name : List ℕ)
        → files_in (name ∷ codes "lint" ∷ codes "b" ∷ codes "a" ∷ [])
        ≡ codes "b" ∷ codes "a" ∷ [] }
    ensures hyphens { (name : List ℕ)
        → files_in (name ∷ codes "check" ∷ codes "--" ∷ codes "-b" ∷ [])
        ≡ codes "-b" ∷ [] }
    ensures version { (name : List ℕ)
        → files_in (name ∷ codes "--version" ∷ codes "check" ∷ codes "b" ∷ []) ≡ [] }
{}

/// A line without words of its own is never refused.
pub fn plain_lines()
    ensures { (words : List (List ℕ)) → IsPlainLine words → faults_in words ≡ [] }
{}
