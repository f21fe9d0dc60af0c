ghost use Rattle.std.specs.Prelude.{ℕ, List, ◌≡◌, ◌<◌, ◌==◌, if◌then◌else◌, map};
ghost use Rattle.vc_linear.specs.Conjugates.{combined};
ghost use Rattle.vc_linear.specs.Tables.{table_transitions};
ghost use Rattle.vc_model.specs.Automata.{Automaton};
ghost use Rattle.vc_model.specs.Gathered.{IsGathered};
ghost use Rattle.vc_model.specs.Letters.{step_sum, letter_word, letter_in};
ghost use Rattle.vc_model.specs.Lists.{In, NoRepeat};
ghost use Rattle.vc_model.specs.Moves.{moves_sum};
ghost use Rattle.vc_model.specs.Sums.{sum_over};
ghost use Rattle.vc_model.specs.WeightSet.{WeightSet, SemiringLaws};
ghost use Rattle.vc_model.specs.Words.{Word};

/// Where the transitions of an automaton gather those of a table, they bring what the rows of the table bring.
pub fn tables_give_moves<V>()
    ensures moves { (R : WeightSet V) → SemiringLaws R
        → (n : ℕ) (labels : List Word) (N : Word → ℕ → ℕ → V) (B : Automaton V)
        → IsGathered R (table_transitions n labels N) B.transitions
        → (i : ℕ) (h : Word → ℕ → V) → i < n
        → moves_sum R B i h ≡ sum_over R (λ a. combined R n (N a i) (h a)) labels }
    ensures letters { (R : WeightSet V) → SemiringLaws R
        → (n : ℕ) (letters : List ℕ) (N : Word → ℕ → ℕ → V) (B : Automaton V) → NoRepeat letters
        → IsGathered R (table_transitions n (map letter_word letters) N) B.transitions
        → (i x : ℕ) (g : ℕ → V) → i < n → In x letters
        → step_sum R B i x g ≡ combined R n (N (letter_word x) i) g }
    ensures steps { (R : WeightSet V) → SemiringLaws R → (A : Automaton V) (p x : ℕ) (g : ℕ → V)
        → step_sum R A p x g
        ≡ moves_sum R A p (λ a q. if letter_in a == x then g q else R.zero) }
{}
