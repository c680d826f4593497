//! Laws of wrapped texts and of lines of names. The functions do nothing; their contracts are the
//! laws.
ghost use Rattle.std.specs.Prelude.{◌≡◌, ◌≢◌, ◌≤◌, slice_index, ℕ, Bool, true, List, [], ◌∷◌, ◌++◌, length, take, drop, map, flat_map, IsTrue};
ghost use Rattle.std.specs.List.{All, concat, list_all};
ghost use Rattle.headline_text.specs.Wrapping.{words, wrapped};
ghost use Rattle.headline_text.specs.NameLines.{name_lines, AreOfNames, EndsInHyphen};
ghost use Rattle.headline_text.specs.Lines.{lines, has_word, is_one_line, without_blanks, without_breaks, EndWhereFull};

/// A wrapped text has no bytes but those of the text, blanks and LF, and starts with the text's
/// first byte if that is no blank. If the text has no LF, the bytes other than blanks and LF are
/// the same in the same order, no line has more than 66 characters, each line after the first
/// starts with two blanks, and each line has a word if the text has one. If moreover no word has
/// more than 64 characters, no word is cut, and a line ends only where the next word does not fit
/// on it.
pub fn wrapping_keeps_words()
    ensures bytes { (p : ℕ → Bool) (text : List ℕ) →
        p 32 ≡ true → p 10 ≡ true → IsTrue (list_all p text) → IsTrue (list_all p (wrapped text)) }
    ensures begins { (c : ℕ) (cs : List ℕ) → c ≢ 32 → slice_index (wrapped (c ∷ cs)) 0 ≡ c }
    ensures short { (text : List ℕ) →
        IsTrue (is_one_line text) → All (λ line. length line ≤ 66) (lines (wrapped text)) }
    ensures indented { (text : List ℕ) →
        IsTrue (is_one_line text) →
        All (λ line. take 2 line ≡ 32 ∷ 32 ∷ []) (drop 1 (lines (wrapped text))) }
    ensures filled { (text : List ℕ) →
        IsTrue (is_one_line text) → IsTrue (has_word text) →
        All (λ line. IsTrue (has_word line)) (lines (wrapped text)) }
    ensures whole { (text : List ℕ) →
        IsTrue (is_one_line text) → without_blanks (wrapped text) ≡ without_blanks text }
    ensures uncut { (text : List ℕ) →
        IsTrue (is_one_line text) → All (λ word. length word ≤ 64) (words text) →
        flat_map words (lines (wrapped text)) ≡ words text }
    ensures full { (text : List ℕ) →
        IsTrue (is_one_line text) → All (λ word. length word ≤ 64) (words text) →
        EndWhereFull (lines (wrapped text)) }
{}

/// The lines of names have no bytes but those of the names, hyphens and LF, and start with the
/// first byte of the first name, if that name is not empty. If no name has an LF, each name with a
/// hyphen after it is whole on one line, the names are in order, and each line ends with a hyphen
/// if there is a name. If moreover no name has more than 65 characters, no line has more than 66.
pub fn names_stay_whole()
    ensures bytes { (p : ℕ → Bool) (names : List (List ℕ)) →
        p 45 ≡ true → p 10 ≡ true → All (λ name. IsTrue (list_all p name)) names →
        IsTrue (list_all p (name_lines names)) }
    ensures begins { (c : ℕ) (cs : List ℕ) (names : List (List ℕ)) →
        slice_index (name_lines ((c ∷ cs) ∷ names)) 0 ≡ c }
    ensures short { (names : List (List ℕ)) →
        All (λ name. IsTrue (is_one_line name)) names → All (λ name. length name ≤ 65) names →
        All (λ line. length line ≤ 66) (lines (name_lines names)) }
    ensures whole { (names : List (List ℕ)) →
        All (λ name. IsTrue (is_one_line name)) names →
        without_breaks (name_lines names) ≡ concat (map (λ name. name ++ 45 ∷ []) names) }
    ensures unbroken { (names : List (List ℕ)) →
        All (λ name. IsTrue (is_one_line name)) names →
        AreOfNames names (lines (name_lines names)) }
    ensures ends { (names : List (List ℕ)) →
        names ≢ [] → All (λ name. IsTrue (is_one_line name)) names →
        All EndsInHyphen (lines (name_lines names)) }
{}
