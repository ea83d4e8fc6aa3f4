//! Laws of the definitions, each stated as the contract of a function that does nothing.
ghost use Rattle.std.specs.Prelude.{◌≡◌, ℕ, List};
ghost use Rattle.tiny_http_text.specs.Qualities.{ListsQualities};

/// Each field value has exactly one reading as a list of names with qualities.
pub fn one_quality_list()
    ensures some { (value : List ℕ) → (list : List (List ℕ × ℕ)) × ListsQualities value list }
    ensures one { (value : List ℕ) (list other : List (List ℕ × ℕ))
        → ListsQualities value list
        → ListsQualities value other
        → list ≡ other }
{}
