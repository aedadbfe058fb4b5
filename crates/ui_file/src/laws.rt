// The laws of whole files.
ghost use Rattle.std.specs.Prelude.{◌≡◌, ℕ, List, length, Ok};
ghost use Rattle.std.specs.List.{AllByRecursion};
ghost use Rattle.ui_frame.specs.Laws.{IsBytes};
ghost use Rattle.ui_frame.specs.Container.{Parts};
ghost use Rattle.ui_strpos.specs.Reading.{Context};
ghost use Rattle.ui_strpos.specs.Format.{InGrammar};
ghost use Rattle.ui_file.specs.declared.file.File.{File};
ghost use Rattle.ui_file.specs.Files.{AllFrom, IsFile, SpellsFile, elements_from, file_in, spelled};
ghost use Rattle.ui_file.specs.Files.{spelled_all};

use ui_strpos::Element;

/// The elements of a section are read as a list exactly where they are its spellings, each in its
/// grammar.
pub fn sections_are_exact<E: Element>()
    ensures again { (s : ℕ) (c : ℕ → Context) (k : ℕ) (xs : List E)
        → AllFrom (λ j a. InGrammar E.format (c j) a) k xs
        → elements_from E.format s c k (spelled_all E.format xs) ≡ Ok xs }
    ensures found { (s : ℕ) (c : ℕ → Context) (k : ℕ) (bs : List (List ℕ)) (xs : List E)
        → AllByRecursion IsBytes bs → elements_from E.format s c k bs ≡ Ok xs
        → (bs ≡ spelled_all E.format xs) × AllFrom (λ j a. InGrammar E.format (c j) a) k xs }
{}

/// The parts of a container are read as a file exactly where they are the file's spelling, and each
/// element is in its grammar over them.
pub fn files_are_exact()
    ensures again { (x : File) → IsFile (spelled x) x → file_in (spelled x) ≡ Ok x }
    ensures found { (parts : Parts) (x : File) → length parts ≡ 10
        → AllByRecursion (AllByRecursion IsBytes) parts → file_in parts ≡ Ok x
        → SpellsFile parts x }
{}
